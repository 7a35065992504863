//! What escapes and names spell.

ghost use Rattle.cv_text_laws.specs.CodePoints.{HexEscapesStandForTheirNumber, LastEscapeStandsForReplacement, NamesEnd, NamesKeepCodePoints, NamesReadEscapes, PlainEscapesStandForThemselves};

/// The code point that an escape stands for.
pub fn escapes_stand_for_code_points()
    ensures plain { PlainEscapesStandForThemselves }
    ensures hex { HexEscapesStandForTheirNumber }
    ensures last { LastEscapeStandsForReplacement }
{}

/// The code points of a name, piece by piece.
pub fn names_spell_code_points()
    ensures ident { NamesKeepCodePoints }
    ensures escape { NamesReadEscapes }
    ensures end { NamesEnd }
{}
