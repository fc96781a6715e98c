// Laws of files.
ghost use Rattle.std.specs.Prelude.{◌≡◌, ◌<◌, ℕ, List, length};
ghost use Rattle.std.specs.List.{AllByRecursion};
ghost use Rattle.tpl_admit.specs.declared.certificate.Cert.{Cert};
ghost use Rattle.tpl_admit.specs.Sizes.{file_size};
ghost use Rattle.tpl_admit.specs.WellFormed.{IsWellFormed};
ghost use Rattle.elf_headers.specs.declared.elf.TheConstants.{EHDR_SIZE, PHDR_SIZE};
ghost use Rattle.elf_headers.specs.declared.writing.Segment.{Segment};
ghost use Rattle.elf_headers.specs.Headers.{elf_header, program_header};
ghost use Rattle.elf_image.specs.File.{file_bytes};
ghost use Rattle.elf_headers.specs.Numbers.{NamesHaveTheirNumbers};
ghost use Rattle.elf_image.specs.Parts.{IsFirstWrong};
ghost use Rattle.elf_image.specs.Told.{told};

use tpl_lang::template_law;

/// How many bytes the file of a certificate has.
pub fn file_lengths()
    ensures { (c : Cert) → length (file_bytes c) ≡ file_size c }
{}

/// Well-formed certificates that share a file tell the same.
pub fn one_spelling()
    ensures { (a b : Cert) → IsWellFormed a → IsWellFormed b → file_bytes a ≡ file_bytes b → told a ≡ told b }
{
    template_law();
}

/// At most one part of some bytes is the first wrong one.
pub fn one_first_wrong()
    ensures { (bytes : List ℕ) (j k : ℕ) → AllByRecursion (λ b. b < 256) bytes → IsFirstWrong bytes j → IsFirstWrong bytes k → j ≡ k }
{}
