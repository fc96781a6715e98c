// That the rows of addresses are those of leaves, and that there are some.
ghost use Rattle.leaf_link.specs.RowsExist.{DataRowsExist};
ghost use Rattle.leaf_link.specs.Served.{EntriesAreLet, FetchRowsServe, LoadRowsServe, StoreRowsServe};

use addr_rows::rows_are_walks;
use rv_isa::Instr;

/// Does nothing. Its contract says that the rows of some pages' addresses, where they are what the translation's script
/// does with the entries that a turn may start, are the rows of a leaf's loads, of its stores and of its fetch; and that
/// the turn lets just the forms be entries.
pub fn rows_serve_leaves()
    ensures entries { EntriesAreLet }
    ensures loads { LoadRowsServe }
    ensures stores { StoreRowsServe }
    ensures fetches { FetchRowsServe }
{}

/// Does nothing. Its contract says that at every turn whose known values are words, the loads have rows of all addresses, and
/// the stores have.
pub fn data_rows_exist()
    ensures { DataRowsExist }
{
    rows_are_walks::<Instr>();
}
