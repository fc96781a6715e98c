//! What statements say and what is wrong with them, whatever lines stand before them: values, sets, and the lists that a
//! template is made of.
#![tactic(auto)]

mod entries;
mod judge;
mod names;
mod ram;
mod sets;
mod starts;
mod values;

pub use entries::{has_key, insert_pair, lazy_places, value_at};
pub use judge::{is_name_twice, is_phrase_above, is_phrase_long};
pub use names::is_any_word_unknown;
pub use ram::{any_holds, has_value, is_any_pointer_flag, is_bad_region, is_number_among};
pub use sets::{align_law, all_values, causes, fours, resolve, vectors_of, word_points};
pub use starts::{is_legal_for, key_of_csr};
pub use values::{number, push_bytes, push_numbers};
