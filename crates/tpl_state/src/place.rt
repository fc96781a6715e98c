// Where a line stands.
ghost use Rattle.std.specs.Prelude.{◌≡◌};
ghost use Rattle.tpl_lang.specs.Faults.{is_begin, is_ended, is_head, is_inside, is_settings};
ghost use Rattle.tpl_state.specs.Internal.Places.{place_view};

/// What may come next.
#[derive(Clone, Copy, Debug, PartialEq, Eq)]
pub enum Place {
    /// A statement of the head, or a hart.
    Head,
    /// A hart's `start`.
    Begin,
    /// Its CSRs and registers, and then its body.
    Settings,
    /// Items of a body.
    Inside,
    /// The brace that ends the hart.
    Ended,
}

impl Place {
    /// Whether a statement of the head, or a hart, may come next.
    pub fn is_head(self) -> bool
        ensures { result ≡ is_head (place_view self) }
    {
        matches!(self, Place::Head)
    }

    /// Whether a hart's `start` comes next.
    pub fn is_begin(self) -> bool
        ensures { result ≡ is_begin (place_view self) }
    {
        matches!(self, Place::Begin)
    }

    /// Whether a hart's CSRs, registers or body may come next.
    pub fn is_settings(self) -> bool
        ensures { result ≡ is_settings (place_view self) }
    {
        matches!(self, Place::Settings)
    }

    /// Whether items of a body may come next.
    pub fn is_inside(self) -> bool
        ensures { result ≡ is_inside (place_view self) }
    {
        matches!(self, Place::Inside)
    }

    /// Whether the brace that ends the hart comes next.
    pub fn is_ended(self) -> bool
        ensures { result ≡ is_ended (place_view self) }
    {
        matches!(self, Place::Ended)
    }
}
