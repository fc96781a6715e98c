// The symbols of the template language.

/// A symbol.
#[derive(Clone, Copy, Debug, PartialEq, Eq)]
pub enum Mark {
    /// `{`
    Open,
    /// `}`
    Close,
    /// `;`
    Semicolon,
    /// `,`
    Comma,
    /// `:`
    Colon,
    /// `..`
    Range,
    /// `=`
    Is,
    /// `==`
    Equal,
    /// `!=`
    Unequal,
}
