// What is seen of a test that is being made, compared.
use part_making::{Making, View, view_of};
use std::process::Abort;

pub fn view_now(rt: &impl Abort, making: &Making) -> View {
    view_of(making).expect(rt, "a hart")
}

pub fn assert_view(rt: &impl Abort, making: &Making, want: &View, row: &str) {
    assert!(rt; view_now(rt, making) == *want, "changed: {row}");
}
