// Laws of headers.
ghost use Rattle.std.specs.Prelude.{◌≡◌, ℕ, length};
ghost use Rattle.elf_headers.specs.declared.elf.TheConstants.{EHDR_SIZE, PHDR_SIZE};
ghost use Rattle.elf_headers.specs.declared.writing.Segment.{Segment};
ghost use Rattle.elf_headers.specs.Headers.{elf_header, program_header};
ghost use Rattle.elf_headers.specs.Numbers.{NamesHaveTheirNumbers};

/// The names of the ELF specification, and those of the notes, have their numbers.
pub fn elf_numbers()
    ensures { NamesHaveTheirNumbers }
{}

/// The ELF header and each program header have as many bytes as the header says, e_ehsize and e_phentsize.
pub fn header_sizes()
    ensures header { (entry phnum : ℕ) → length (elf_header entry phnum) ≡ EHDR_SIZE }
    ensures segment { (s : Segment) → length (program_header s) ≡ PHDR_SIZE }
{}
