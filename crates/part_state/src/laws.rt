// What a certificate tells of a hart, and how long its file is.
ghost use Rattle.std.specs.Prelude.{◌≡◌, ℕ, ◌*◌};
ghost use Rattle.tpl_admit.specs.Starts.{lookup};
ghost use Rattle.tpl_ast.specs.States.{is_in_ram};
ghost use Rattle.rv_mem.specs.declared.words.Seen.{Seen};
ghost use Rattle.rv_mem.specs.Seen.{is_there};
ghost use Rattle.tpl_admit.specs.declared.certificate.Cert.{Cert};
ghost use Rattle.part_machine.specs.Whole.{Bare};
ghost use Rattle.part_laws.specs.Laws.{IsStateOf};
ghost use Rattle.part_told.specs.Finishing.{places_in, told_state};
ghost use Rattle.part_state.specs.Files.{FileSizesFollow};
ghost use Rattle.part_state.specs.Meaning.{value_of_key, held_in, IsFit};

use tpl_lang::template_law;

/// Does nothing. Its contract says that what a certificate tells of a hart is what is known of it.
pub fn told_places()
    ensures state { (c : Cert) (k : ℕ) (b : Bare) (at : ℕ → Seen) → IsFit b → b.csrs.hart ≡ k → ((n : ℕ) → is_in_ram c.template.ram (n * 4) ≡ is_there (at n)) → IsStateOf c k (told_state b) (held_in b at) }
    ensures places { (b : Bare) → IsFit b → (key : ℕ) → lookup (places_in b) key ≡ value_of_key b key }
{}

/// Does nothing. Its contract says that a file is within its limit of bytes where all else is within its limits.
pub fn file_sizes()
    ensures { FileSizesFollow }
{
    template_law();
}
