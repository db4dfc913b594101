//! What holds of all boxes of a page.
ghost use Rattle.std.specs.Prelude.{◌≡◌, ℕ, true, List, [], ◌∷◌, ◌++◌};
ghost use Rattle.com_model.specs.declared.deeds.Deed.{Deed};
ghost use Rattle.com_model.specs.declared.deeds.Entry.{Entry};
ghost use Rattle.com_model.specs.declared.scenario.Scenario.{Scenario};
ghost use Rattle.com_model.specs.Formed.{Formed};
ghost use Rattle.com_model.specs.Rules.{legal};
ghost use Rattle.com_draw.specs.declared.beside.Beside.{Beside};
ghost use Rattle.com_draw.specs.Pages.{page};
ghost use Rattle.com_draw_words.specs.Boxes.{is_drawn};
ghost use Rattle.com_laws_draw.specs.Boxes.{AllNest, Each, Placed, box_at};
ghost use Rattle.com_laws_boxes.specs.Boxes.{GroundsAreBare, StandsWhereRun, ground_at, in_lane};
ghost use Rattle.com_laws_boxes.specs.Pieces.{Piece, box, page_boxes, page_pieces, text_of};

/// A page is its boxes, in the order in which they are drawn, and the bytes between them. They are the grounds
/// of homes, what stands open in lanes, and the lives of objects.
pub fn page_is_made_of_boxes()
    ensures { (s : Scenario) (h : List Entry) (x : Beside) → text_of (page_pieces s h x) ≡ page s h x }
{}

/// In a section of a page two boxes of a lane, its grounds among them, have no row in common, or one is inside
/// the other, at a deeper level. So it is of every list of entries in which grounds begin and end while nothing
/// is open in their lanes (`bare`), and of every legal history of a formed scenario (`legal`).
pub fn all_boxes_nest()
    ensures bare { (s : Scenario) (l : ℕ) (h : List Entry) (x : Beside) → GroundsAreBare s h
        → AllNest (in_lane l (page_boxes s h x)) }
    ensures legal { (s : Scenario) (l : ℕ) (h : List Entry) (x : Beside) → Formed s → legal s h
        → AllNest (in_lane l (page_boxes s h x)) }
{}

/// Each body's box of a page stands in the column of the lane that entered its call.
pub fn bodies_stand()
    ensures { (s : Scenario) (h : List Entry) (x : Beside) → Each (StandsWhereRun h) (page_boxes s h x) }
{}

/// The laws of boxes are not empty. They fail of two boxes that cross, of a ground that ends inside of a body,
/// of a body in the column of another lane, and of a page that lacks a box.
pub fn all_boxes_bite()
    ensures crossing { AllNest (in_lane 1 (box_at 1 0 5 ∷ box_at 2 3 8 ∷ [])) → ⊥ }
    ensures ground { AllNest (in_lane 1 (ground_at 0 5 ∷ box_at 1 3 8 ∷ [])) → ⊥ }
    ensures lane { (d : Deed) → Each (StandsWhereRun (record { lane = 2; deed = d } ∷ [])) (box_at 1 0 5 ∷ [])
        → ⊥ }
    ensures lost { (ps qs : List Piece) (x : Placed) → is_drawn x.box ≡ true
        → text_of (ps ++ qs) ≡ text_of (ps ++ box x ∷ qs) → ⊥ }
{}
