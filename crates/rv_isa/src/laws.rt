//! The laws of the codec, and of the operations' numbers.

ghost use Rattle.rv_isa.specs.Numbers.{NumbersAreRead, NumbersAreSmall, NumbersAreWhole};
ghost use Rattle.rv_isa.specs.Laws.{EncodesAllFitting, EncodesInWords, FitsInRange, ReadsAllEncoded, ReadsOnlyEncoded};

/// Does nothing. Its contract says that words and instructions whose fields fit belong together one
/// to one: reading undoes encoding, and reads nothing else.
pub fn codec_laws()
    ensures sound { ReadsOnlyEncoded }
    ensures complete { ReadsAllEncoded }
    ensures encoded { EncodesAllFitting }
    ensures words { EncodesInWords }
    ensures ranges { FitsInRange }
{}

/// Does nothing. Its contract says that operations and the numbers below 58 belong together one to one.
pub fn number_laws()
    ensures read { NumbersAreRead }
    ensures whole { NumbersAreWhole }
    ensures small { NumbersAreSmall }
{}
