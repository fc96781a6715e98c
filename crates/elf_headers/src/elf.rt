// The names of the ELF specification (System V ABI, Object Files and Program Loading; RISC-V ELF psABI),
// and of the notes.

pub const ELFMAG0: u8 = 0x7f;

pub const ELFMAG1: u8 = b'E';

pub const ELFMAG2: u8 = b'L';

pub const ELFMAG3: u8 = b'F';
/// 32-bit objects.
pub const ELFCLASS32: u8 = 1;
/// Numbers with the least byte first.
pub const ELFDATA2LSB: u8 = 1;

pub const EV_CURRENT: u8 = 1;
/// No extensions.
pub const ELFOSABI_NONE: u8 = 0;
/// The place of the ABI's version in e_ident; from there on all bytes are 0.
pub const EI_ABIVERSION: usize = 8;
/// How many bytes e_ident has.
pub const EI_NIDENT: usize = 16;
/// The bytes of e_ident.
pub const E_IDENT: [u8; EI_NIDENT] = [
    ELFMAG0,
    ELFMAG1,
    ELFMAG2,
    ELFMAG3,
    ELFCLASS32,
    ELFDATA2LSB,
    EV_CURRENT,
    ELFOSABI_NONE,
    0,
    0,
    0,
    0,
    0,
    0,
    0,
    0,
];

/// An executable file.
pub const ET_EXEC: u16 = 2;

pub const EM_RISCV: u16 = 243;
/// e_ehsize, in bytes.
pub const EHDR_SIZE: u16 = 52;
/// e_phentsize, in bytes.
pub const PHDR_SIZE: u16 = 32;

/// A segment that is loaded.
pub const PT_LOAD: u32 = 1;
/// A segment of notes.
pub const PT_NOTE: u32 = 4;

pub const PF_X: u32 = 1;

pub const PF_W: u32 = 2;

pub const PF_R: u32 = 4;
/// p_align of every segment, in bytes.
pub const ALIGN: u32 = 4;

/// namesz of every note, in bytes: TGEN and a zero.
pub const NAME_SIZE: u32 = 5;

/// The name of every note, with its padding.
pub const NAME: [u8; 8] = [b'T', b'G', b'E', b'N', 0, 0, 0, 0];

pub const NT_START: u32 = 1;

pub const NT_TRACES: u32 = 2;

pub const NT_FINAL: u32 = 3;

pub const NT_TEMPLATE: u32 = 4;

pub const NT_REST: u32 = 5;
/// The version of the notes.
pub const VERSION: u32 = 1;
