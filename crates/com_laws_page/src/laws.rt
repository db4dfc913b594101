//! What holds of every page, and of its stories.
ghost use Rattle.std.specs.Prelude.{List, length};
ghost use Rattle.com_draw.specs.declared.beside.Beside.{Beside};
ghost use Rattle.com_draw.specs.Pages.{page};
ghost use Rattle.com_draw_names.specs.declared.contexts.Context.{Context};
ghost use Rattle.com_draw_stories.specs.Calls.{story};
ghost use Rattle.com_laws_markup.specs.Closed.{IsClosed};
ghost use Rattle.com_laws_page.specs.Pages.{HasOneScript, IsWellFormed, row_numbers};
ghost use Rattle.com_model.specs.declared.deeds.Entry.{Entry};
ghost use Rattle.com_model.specs.declared.scenario.Scenario.{Scenario};

/// The story of every entry is closed: behind it the reader is where it was, whatever names it has.
pub fn stories_are_closed()
    ensures { (s : Scenario) (x : Context) (e : Entry) → IsClosed (story s x e) }
{}

/// Whatever the names and texts of a scenario are, and whatever its history, they stand in the page only as
/// text: the page is well-formed markup of known elements and attributes, none of which runs anything or
/// leads out of the page (`well_formed`), and it has no script but its own (`scriptless`). So a page of a
/// stranger's scenario is safe to open. Each entry up to the limit has exactly one element with its number,
/// in order.
pub fn page_is_well_formed()
    ensures well_formed { (s : Scenario) (h : List Entry) (x : Beside)
        → IsWellFormed (row_numbers (length h)) (page s h x) }
    ensures scriptless { (s : Scenario) (h : List Entry) (x : Beside)
        → HasOneScript (row_numbers (length h)) (page s h x) }
{}
