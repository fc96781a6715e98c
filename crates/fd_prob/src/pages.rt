// The pages in which addresses lie.
ghost use Rattle.std.specs.Prelude.{◌≡◌, ◌<◌, ◌≤◌, ◌^◌, IfSome, find, nat_le};
ghost use Rattle.fd_prob.specs.Spaces.{pages_of};

use dom_set::Set;

/// The first element that is not below the number.
#[tactic(auto, using(crate::proofs::Firsts::none_found, crate::proofs::Firsts::found))]
fn first_not_below(set: &Set, from: u32) -> Option<u32>
    ensures first { result ≡ find (λ x. nat_le from x) set.now }
    ensures within { IfSome result (λ x. (from ≤ x) × (x < 2 ^ 32)) }
{
    match set.first_from(from) {
        Some(x) => { if from <= x { Some(x) } else { None } }
        None => None,
    }
}

/// How many pages of 4,096 bytes hold an element.
pub fn pages_of(set: &Set) -> u64
    ensures { result ≡ pages_of set.now }
{
    // `size` also says that the elements ascend.
    let size = set.size();
    // Where all of them stand at one place of their pages, each has a page of its own.
    if set.bits_under(PLACE).is_some() {
        return size;
    }
    let mut pages = 0;
    let mut page = 0;
    while page < PAGES {
        let Some(x) = first_not_below(set, page * 4096) else {
            return pages;
        };
        // The page of the element, and then those that the set is known to have without a look at each.
        let next = x / 4096 + 1;
        page = set.pages_end(next);
        pages += 1 + u64::from(page - next);
    }
    pages
}

/// How many pages there are.
const PAGES: u32 = 0x10_0000;

/// The bits of an address that tell its place in its page.
const PLACE: u32 = 0xfff;
