//! Exact finite sets of 32-bit numbers. A `Set` is kept as a list of pieces, which are `set_pieces`', and no number is
//! in two of them. No call's time grows with the number of elements, but that of `shift` where it splits a piece.
//! `from_ranges` keeps at most one piece for each pair, with the mask 2^k - 1 for the multiples of 2^k, `below` and
//! `with_odd` one for each piece, `signed_below` two. `from_patterns` makes one piece of each pattern, whose ends tell
//! the highest bits of the mask down to the highest one that it lacks, and joins the pieces of each half of the
//! patterns as `or` does, which keeps those of one set, and beside them what `minus` leaves of the other.
//!
//! `and` keeps one piece for each two that have a number in common, where their holes are one: where one of two holes has
//! all that the other has, as the multiples of 64 and those of 4,096 have. A piece less one that it has a number in common
//! with is what is below the other, what is above it, and between its ends one piece with a hole, where this and the
//! piece's own hole are one, and beside these what the other's hole leaves. Where two holes are not one, the numbers that a
//! hole leaves are taken by its bits: for each bit that the hole has and the run's mask lacks a piece of those that differ
//! in it first. So a set that `from_ranges` made at a power of two, less others that it made at greater powers, on the
//! same or on other ranges, has one piece for each range into which the ends of all cut the numbers. Nothing of the kind
//! is said of sets that are shifted by different distances or that `from_patterns` or `masked` made. No mask of a result has
//! a bit above all those of its sources, but one that `masked` makes, whose bits may be any of the mask's, so that `shift`
//! may split such a piece often.
//!
//! `shift` keeps at most two pieces for one whose mask, and whose hole's, is 2^k - 1; the numbers of another with a hole
//! are taken by the hole's bits first. Of a run whose mask is none of these it makes such runs, without the highest bits
//! that all its numbers share. Their number, and the time, can double for each bit that the mask lacks below its highest
//! one, though those that hold no number are left out. Where the run reaches into no more blocks of as many numbers as tell
//! the mask's bits apart than that, or, if the mask lacks two such bits or more, into fewer than 4,096, it is taken block by
//! block.
//!
//! `masked` makes one piece of a piece whose run holds all numbers up to the mask that match its pattern. The range of
//! another, first widened to rounder ends over numbers that don't match, is cut into blocks of 2^j numbers that begin at a
//! multiple of 2^j, at most 64 of them, and each block that begins within the mask gives at most one piece, with the old one's
//! hole. Where the mask has all bits, the pieces stay as they are.
//!
//! The pieces of a set begin in ascending order. So `and`, `minus` and `or` go through those of both sets once:
//! on the way they keep apart the pieces of one set that have begun and have not ended, also where a long
//! one stands before many others. So beside the pieces that they make and put in order, their time is that of
//! both lists and of the pairs of pieces whose ranges overlap; `minus` and `or` compare the second piece of such a
//! pair with all parts into which the first was cut that do not end before it. `from_patterns` takes that time for
//! each half, each half of a half and so on, in the order of n log^2 n for n patterns whose ranges do not overlap.
//! `==` compares all pairs of pieces of two sets of the same size whose pieces differ. `tracks` tells ranges of numbers a
//! power of two apart around a set's numbers: one or two for each piece, and as many for each bit of a hole.
#![tactic(auto)]

mod combined;
mod laws;
mod lists;
mod pairs;
mod set;
mod track;
mod tracks;

pub use laws::set_laws;
pub use set::Set;
pub use set_pieces::OutOfMemory;
pub use track::Track;
