//! Laws of the definitions alone. A caller whose proof needs a law calls its function, which does nothing.
ghost use Rattle.map_image.specs.Parts.{HasOneCutting, PartsAreCounted, PartsAreFew, TextsAreSome};

/// States that a text is cut into parts in one way only, and how many parts there are.
pub fn parts_of_a_text()
    ensures some { TextsAreSome }
    ensures one { HasOneCutting }
    ensures counted { PartsAreCounted }
    ensures few { PartsAreFew }
{}
