/// What a step rests on and what may not be known yet.
#[derive(Clone, Copy, Debug, PartialEq, Eq)]
pub enum Place {
    /// A register by its number; x0 is always known.
    Reg(u8),
    /// A control and status register by its address.
    Csr(u16),
    /// An aligned word of memory by its physical address.
    Word(u32),
}
