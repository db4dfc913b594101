//! What holds of the rows and of the boxes of a page. They are those lists of which its bytes are made.
ghost use Rattle.std.specs.Prelude.{◌≡◌, ℕ, List, ◌∷◌, ◌++◌, []};
ghost use Rattle.com_model.specs.declared.deeds.Entry.{Entry};
ghost use Rattle.com_model.specs.declared.scenario.Scenario.{Scenario};
ghost use Rattle.com_draw_shapes.specs.declared.effects.Closing.TheVariants as close;
ghost use Rattle.com_draw_shapes.specs.Boxes.{closing_boxes, home_boxes};
ghost use Rattle.com_draw_shapes.specs.Sections.{foot_in, lane_boxes};
ghost use Rattle.com_draw_state.specs.declared.lanes.Lane.{Lane};
ghost use Rattle.com_draw_state.specs.declared.stacks.Start.{Start};
ghost use Rattle.com_draw_state.specs.Board.{State};
ghost use Rattle.com_draw_words.specs.declared.boxes.Foot.TheVariants as foot;
ghost use Rattle.com_draw.specs.declared.beside.Beside.{Beside};
ghost use Rattle.com_draw.specs.Pages.{page, written};
ghost use Rattle.com_laws_draw.specs.Boxes.{AllNest, Each, box_at, boxes_below, texts};
ghost use Rattle.com_laws_draw.specs.Lanes.{StandsIn, box_closed, boxes_in};
ghost use Rattle.com_laws_draw.specs.Rows.{HasEntries, IsCounted, Row, rows};

/// The rows of a page are those of its history's entries up to the limit, each once and in order, each with
/// its entry's number and line; and what is written of the history is made of them.
pub fn every_entry_is_there()
    ensures { (s : Scenario) (h : List Entry) → HasEntries s h (rows s h) (written s h) }
{}

/// The rows, and the entries that the line behind them counts, are together all entries of the history. Where
/// there are entries above the limit the page has that line, directly behind the last row.
pub fn what_is_not_drawn_is_counted()
    ensures { (s : Scenario) (h : List Entry) (x : Beside)
        → IsCounted s h x (rows s h) (written s h) (page s h x) }
{}

/// In a section of a page two boxes of a lane, of what stood open in it, have no row in common, or one is
/// inside the other, at a deeper level (`nest`). Each stands in the lane's own column, and a body's box in that
/// of the lane that entered its call (`stand`).
pub fn boxes_nest()
    ensures nest { (s : Scenario) (l : ℕ) (h : List Entry) (x : Beside) → AllNest (boxes_in s l h x) }
    ensures stand { (s : Scenario) (l : ℕ) (h : List Entry) (x : Beside)
        → Each (StandsIn h l) (boxes_in s l h x) }
{}

/// These boxes are those that the page draws: of what an entry closes (`closing`), and behind that of its
/// home those of a lane at the end of a section (`section`).
pub fn boxes_are_drawn()
    ensures closing { (here : Start) (l : ℕ) (b : State)
        → closing_boxes here l close.Innermost b ≡ texts (box_closed here l close.Innermost b) }
    ensures section { (here : Start) (cycle : List ℕ) (l : ℕ) (row : Lane) → lane_boxes here cycle l row
        ≡ home_boxes here l foot.Down row.home
        ++ texts (boxes_below here l (foot_in cycle l) 1 row.openings) }
{}

/// The laws of rows are not empty. They fail where an entry has no row, where one has two, and where one is
/// neither drawn nor counted.
pub fn rows_bite()
    ensures lost { (s : Scenario) (d e : Entry) (r : Row) (t : List ℕ)
        → HasEntries s (e ∷ d ∷ []) (r ∷ []) t → ⊥ }
    ensures twice { (s : Scenario) (d e : Entry) (r : Row) (t : List ℕ)
        → HasEntries s (e ∷ d ∷ []) (r ∷ r ∷ []) t → ⊥ }
    ensures uncounted { (s : Scenario) (e : Entry) (x : Beside) (w t : List ℕ)
        → IsCounted s (e ∷ []) x [] w t → ⊥ }
{}

/// The laws of boxes are not empty. They fail of two boxes that cross, of two that stand at one level in the
/// same rows, of a box in another lane, and of a body that its lane did not enter.
pub fn boxes_bite()
    ensures crossing { AllNest (box_at 1 0 5 ∷ box_at 2 3 8 ∷ []) → ⊥ }
    ensures level { AllNest (box_at 1 0 5 ∷ box_at 1 2 3 ∷ []) → ⊥ }
    ensures lane { (h : List Entry) → StandsIn h 2 (box_at 1 0 5) → ⊥ }
    ensures stranger { StandsIn [] 1 (box_at 1 0 5) → ⊥ }
{}
