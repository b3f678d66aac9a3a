//! What a reader of JSON makes of these texts.

ghost use Rattle.json_text.specs.ReadBack.{ReadsBack};

/// A reader of JSON gives these very texts back: a law. Costs nothing.
pub fn json_law()
    ensures { ReadsBack }
{}
