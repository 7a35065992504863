//! What is read ends at its first end.

ghost use Rattle.cv_text_laws.specs.FirstEnds.{CommentsEndFirst, CommentsTakeClosing, StringsEndFirst, StringsTakeQuotes, UrlsEndFirst, UrlsTakeClosing};

/// A string ends at the first quote of its kind or LF that isn't escaped, or at the end of the text.
pub fn strings_end_first()
    ensures ends { StringsEndFirst }
    ensures takes { StringsTakeQuotes }
{}

/// A url, bad or not, ends at the first `)` that isn't escaped, or at the end of the text.
pub fn urls_end_first()
    ensures ends { UrlsEndFirst }
    ensures takes { UrlsTakeClosing }
{}

/// A comment ends at the first `*/`, or at the end of the text.
pub fn comments_end_first()
    ensures ends { CommentsEndFirst }
    ensures takes { CommentsTakeClosing }
{}
