//! What holds of the page's markup.
ghost use Rattle.std.specs.Prelude.{◌≡◌, ℕ, Bool, true, false, List, ◌∷◌, ◌++◌, [], Option, codes, decimal};
ghost use Rattle.com_draw_words.specs.Arrows.{arrow_text};
ghost use Rattle.com_draw_words.specs.Boxes.{box_text, touch_text};
ghost use Rattle.com_draw_words.specs.Escapes.{escaped, link_text};
ghost use Rattle.com_draw_words.specs.Labels.{label_text};
ghost use Rattle.com_draw_words.specs.Rows.{entry_front_text, row_end_text, row_middle_text};
ghost use Rattle.com_draw_words.specs.declared.arrows.Arrow.{Arrow};
ghost use Rattle.com_draw_words.specs.declared.boxes.DrawnBox.{DrawnBox};
ghost use Rattle.com_draw_words.specs.declared.labels.Look.{Look};
ghost use Rattle.com_draw_words.specs.declared.rows.Mark.{Mark};
ghost use Rattle.com_laws_markup.specs.Closed.{IsClosed};
ghost use Rattle.com_laws_markup.specs.Markup.{Before, Content, Refused, Value, read};

/// Whatever a text is, in the page it is text: behind it the reader of markup is where it was before it, in
/// the content of an element (`content`) and in a title (`title`).
pub fn nothing_comes_in()
    ensures content { (s : Bool) (n : List ℕ) (o e : List (List ℕ)) (w : List ℕ)
        → read s (Content (n ∷ o) e) (escaped w) ≡ Content (n ∷ o) e }
    ensures title { (s : Bool) (o e : List (List ℕ)) (n : List ℕ) (g : List (List ℕ)) (v w : List ℕ)
        → read s (Value o e n g (codes "title") v) (escaped w) ≡ Value o e n g (codes "title") v }
{}

/// Each element of the drawing is closed: behind a box, an arrow, a label, the mark of a touched object and a
/// link the reader is where it was before, and it met no entry in them.
pub fn words_are_closed()
    ensures boxes { (b : DrawnBox) → IsClosed (box_text b) }
    ensures touches { (lane level : ℕ) → IsClosed (touch_text lane level) }
    ensures arrows { (a : Arrow) → IsClosed (arrow_text a) }
    ensures labels { (lane level : ℕ) (look : Look) (words : List ℕ)
        → IsClosed (label_text lane level look words) }
    ensures links { (c : ℕ) → IsClosed (link_text c) }
{}

/// A row holds its entry: where its story and its marks are closed, the reader is where it was before the
/// row, and has met one entry, that of the row's number.
pub fn rows_hold_their_entries()
    ensures { (s : Bool) (n : List ℕ) (o e : List (List ℕ)) (k : ℕ) (call : Option ℕ) (m : Mark)
        (title story marks : List ℕ) → IsClosed story → IsClosed marks
        → read s (Content (n ∷ o) e)
        (entry_front_text k call m title ++ story ++ row_middle_text ++ marks ++ row_end_text)
        ≡ Content (n ∷ o) (decimal k ∷ e) }
{}

/// The definition refuses broken markup: a name that is not escaped, a box that is not closed, an attribute
/// without its end, an attribute that runs something, a script, a link that leads out of the page, a second
/// element behind the page's, text outside of it, and a page that does not say its type.
pub fn well_formed_bites()
    ensures name { read true (Content [] []) (codes "<p>a<x</p>") ≡ Refused }
    ensures unclosed { read true (Content [] []) (codes "<p><i>a</p>") ≡ Refused }
    ensures quote { read true (Content [] []) (codes "<p id=\"a>b</p>") ≡ Refused }
    ensures runs { read true (Content [] []) (codes "<p onclick=\"a\">b</p>") ≡ Refused }
    ensures script { read false (Content [] []) (codes "<p><script>a()</script></p>") ≡ Refused }
    ensures link { read true (Content [] []) (codes "<a href=\"http://a\">b</a>") ≡ Refused }
    ensures second { read true (Content [] []) (codes "<p>a</p><p>b</p>") ≡ Refused }
    ensures outside { read true (Content [] []) (codes "a<p>b</p>") ≡ Refused }
    ensures typeless { read true (Before []) (codes "<p>a</p>\n") ≡ Refused }
{}
