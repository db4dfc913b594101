//! Event sources after IConnectionPoint: what their bodies do, stated on functions that do nothing.
#![tactic(auto)]

ghost use Rattle.std.specs.Prelude.{◌≡◌, ◌↔◌, ◌⊎◌, ℕ, ◌+◌, ◌≤◌, ◌<◌, ◌^◌, ℤ, pos, int_lt, true, false};
ghost use Rattle.std.specs.Prelude.{length, List, [], ◌∷◌, ◌++◌, Some, None};
ghost use Rattle.com_base.specs.declared.limits.TheConstants.{LINK_COUNT};
ghost use Rattle.com_base.specs.declared.value.RefValue.{RefValue};
ghost use Rattle.com_base.specs.declared.value.Value.{Value};
ghost use Rattle.com_base.specs.declared.value.Value.TheVariants as value;
ghost use Rattle.com_body.specs.declared.frame.Cells.{Cells};
ghost use Rattle.com_body.specs.Frames.{FrameView, entered, with_register};
ghost use Rattle.com_body.specs.Operands.{new_cells};
ghost use Rattle.com_model.specs.declared.deeds.Entry.{Entry};
ghost use Rattle.com_model.specs.declared.scenario.Scenario.{Scenario};
ghost use Rattle.com_model.specs.Formed.{Formed};
ghost use Rattle.com_model.specs.Rules.{legal};
ghost use Rattle.com_model.specs.Safe.{EachEntry};
ghost use Rattle.com_laws_sources.specs.Alone.{alone};
ghost use Rattle.com_laws_sources.specs.Deliveries.{InOrder, NonePassed, AllGot, TakesNext};
ghost use Rattle.com_laws_sources.specs.Histories.{Delivered};
ghost use Rattle.com_laws_sources.specs.Sourced.{SourceRuns, SinksAfter};
ghost use Rattle.com_laws_sources.specs.Sources.{IsSource};
ghost use Rattle.com_laws_sources.specs.Steps.{OwnStep, GoesAlone, CellsStay, FramesStay, BackWrites};
ghost use Rattle.com_laws_sources.specs.Bodies.{ok, e_pointer, no_connection, advise_limit, advise_body};
ghost use Rattle.com_laws_sources.specs.Bodies.{unadvise_body, fire_body};
ghost use Rattle.com_laws_sources.specs.Fitting.{GivenFit};
ghost use Rattle.com_laws_sources.specs.Kept.{Keeps};
ghost use Rattle.com_laws_sources.specs.Rounds.{number, Leaves, AtRound, Begins, Fires};
ghost use Rattle.com_laws_sources.specs.Runs.{StillAlone, LeavesAlone};
ghost use Rattle.com_laws_sources.specs.Servers.{OneLane};
ghost use Rattle.com_laws_sources.specs.Sinks.{Sink, is_cookie, has_cookie, without, first_between};

/// What `advise` does by itself, where the cells keep some sinks and `last` is the cookie that was given
/// last.
///
/// Null is refused with E_POINTER, and then a fifth sink with CONNECT_E_ADVISELIMIT; the sinks stay as they
/// were. Any other sink is taken behind the others under a new cookie, one more than the last one, and the
/// cookie is the result. The cells of a new object keep no sinks (`fresh`).
pub fn advising()
    ensures fresh { Keeps new_cells [] 0 }
    ensures null { (c : Cells) (sinks : List Sink) (last : ℕ) → Keeps c sinks last
        → Leaves (alone advise_body 1 (entered (value.Ref None ∷ [])) c) e_pointer None sinks last }
    ensures full { (c : Cells) (sinks : List Sink) (last : ℕ) (sink : RefValue) → Keeps c sinks last
        → length sinks ≡ LINK_COUNT → Leaves (alone advise_body 1 (entered (value.Ref
        (Some sink) ∷ [])) c) advise_limit None sinks last }
    ensures taken { (c : Cells) (sinks : List Sink) (last : ℕ) (sink : RefValue) → Keeps c sinks last
        → length sinks < LINK_COUNT → last + 1 < 2 ^ 63
        → Leaves (alone advise_body 1 (entered (value.Ref (Some sink) ∷ [])) c) ok (Some (number
        (last + 1))) (sinks ++ (record { cookie = last + 1; held = Some sink } ∷ [])) (last + 1) }
{}

/// What `unadvise` does by itself: the sink with the cookie goes, and the others keep their order. Where no
/// sink has it the answer is CONNECT_E_NOCONNECTION, and the sinks stay as they were. In the range of 64
/// bits a number is a cookie where it is equal to it (`cookie`). Of any number at all, one of the two holds
/// (`either`).
pub fn unadvising()
    ensures removed { (c : Cells) (sinks : List Sink) (last : ℕ) (n : ℤ) → Keeps c sinks last
        → int_lt (pos 0) n ≡ true → has_cookie n sinks ≡ true
        → Leaves (alone unadvise_body 4 (entered (value.Int n ∷ [])) c) ok None (without n sinks) last }
    ensures cookie { (n cookie : ℕ) → n < 2 ^ 63 → cookie < 2 ^ 63
        → (is_cookie (pos n) cookie ≡ true) ↔ (n ≡ cookie) }
    ensures either { (c : Cells) (sinks : List Sink) (last : ℕ) (n : ℤ) → Keeps c sinks last
        → Leaves (alone unadvise_body 4 (entered (value.Int n ∷ [])) c) ok None (without n sinks) last
        ⊎ Leaves (alone unadvise_body 4 (entered (value.Int n ∷ [])) c) no_connection None sinks last }
    ensures none { (c : Cells) (sinks : List Sink) (last : ℕ) (n : ℤ) → Keeps c sinks last
        → is_cookie n 0 ≡ false → (int_lt (pos 0) n ≡ true → has_cookie n sinks ≡ false)
        → Leaves (alone unadvise_body 4 (entered (value.Int n ∷ [])) c) no_connection None sinks last }
{}

/// What `fire` does by itself, one event after another.
///
/// It begins its first round with the cookie that was given last (`begins`). A round sends the event to the
/// first sink whose cookie is above that of the sink before it and at most that last one, whatever sinks
/// the cells keep by then, and leaves with the number of events where there is none (`round`), or after
/// four (`over`). What the runtime writes between two rounds, the call's answer and result, changes nothing
/// of that (`written`). So no sink gets an event twice, they get it in the order of their cookies, and none
/// that was taken after the beginning gets it (`rises`).
pub fn firing()
    ensures begins { (c : Cells) (sinks : List Sink) (last : ℕ) (n : ℤ) → Keeps c sinks last
        → Begins c n last }
    ensures round { (c : Cells) (sinks : List Sink) (given sent : ℕ) (event : Value) (last reached : ℕ)
        (f : FrameView) → Keeps c sinks given → AtRound f sent event last reached → sent < LINK_COUNT
        → Fires (alone fire_body 1 f c) sent event last sinks given (first_between reached last sinks) }
    ensures over { (c : Cells) (sinks : List Sink) (given : ℕ) (event : Value) (last reached : ℕ)
        (f : FrameView) → Keeps c sinks given → AtRound f LINK_COUNT event last reached
        → Leaves (alone fire_body 1 f c) ok (Some (number LINK_COUNT)) sinks given }
    ensures written { (sent : ℕ) (event v : Value) (last reached : ℕ) (f : FrameView)
        → AtRound f sent event last reached → AtRound (with_register f 7 v) sent event last reached
        × AtRound (with_register f 15 v) sent event last reached }
    ensures rises { (sinks : List Sink) (last reached : ℕ) (to : Sink)
        → first_between reached last sinks ≡ Some to → (reached < to.cookie) × (to.cookie ≤ last) }
{}

/// In every legal history an entry of a lane whose innermost opener is a body is one step of this body
/// (`own`): a copy, a release and an Out have what the body's action says, a Leave has its HRESULT and
/// value, and the frame and the cells of the object are those of the step afterwards. So a body on top does
/// in a history what it does by itself, up to its next call or its end (`alone`). The cells of an object
/// stay at every other entry, but at its Final and at the end of the STA in which it was made (`cells`),
/// and so does the frame of a body (`frames`), into which only a call that comes back writes (`back`).
pub fn own_steps()
    ensures own { (s : Scenario) (h : List Entry) (e : Entry) → legal s (e ∷ h) → OwnStep s h e }
    ensures alone { (s : Scenario) (h : List Entry) (e : Entry) → legal s (e ∷ h) → GoesAlone s h e }
    ensures cells { (s : Scenario) (h : List Entry) (e : Entry) → CellsStay s h e }
    ensures frames { (s : Scenario) (h : List Entry) (e : Entry) → FramesStay s h e }
    ensures back { (s : Scenario) (h : List Entry) (e : Entry) → BackWrites s h e }
{}

/// In every legal history of a formed scenario all bodies that are open in an STA stand in one lane. The
/// objects of a source live in an STA, so its bodies run one above another, and no other lane comes between
/// two entries of a body that makes no call.
pub fn one_lane()
    ensures { (s : Scenario) (h : List Entry) → Formed s → legal s h → OneLane h }
{}

/// In every legal history of a formed scenario a call on an object that is not agile, entered in an STA,
/// whose body comes to its Leave by itself, with no call on the way, does so in the history too, whatever
/// other lanes do meanwhile: while it is on top it has what is left of that (`still`), and its Leave has
/// that answer and result, and leaves those cells (`leaves`). So `advise` and `unadvise` change the sinks
/// of a source in one piece.
pub fn runs_alone()
    ensures still { (s : Scenario) (h : List Entry) → Formed s → legal s h → StillAlone s h }
    ensures leaves { (s : Scenario) (h : List Entry) (e : Entry) → Formed s → legal s (e ∷ h)
        → LeavesAlone s h e }
{}

/// The calls of a source run these bodies, and its objects are not agile (`bodies`). In every legal history
/// of a formed scenario the Leave of such a call, entered in an STA, has the answer to which its body comes
/// by itself, and leaves the sinks to which it comes (`sinks`); what `advise` and `unadvise` come to,
/// `advising` and `unadvising` say.
pub fn source_calls()
    ensures bodies { (s : Scenario) (class iface : ℕ) → IsSource s class iface → SourceRuns s class iface }
    ensures sinks { (s : Scenario) (h : List Entry) (e : Entry) → Formed s → legal s (e ∷ h)
        → SinksAfter s h e }
{}

/// In every legal history of a formed scenario a call whose body is open was entered with as many values as
/// its method has parameters, each of its kind. So `advise` has one reference, which may be null, and
/// `unadvise` and `fire` have one number.
pub fn given_values()
    ensures { (s : Scenario) (h : List Entry) → Formed s → legal s h → GivenFit s h }
{}

/// One event of a source, whatever reenters it, in every legal history of a formed scenario with fewer
/// than 2^63 entries (cookies are numbers of 64 bits).
///
/// Each Out of the body of `fire` goes to the first sink that the source has then, whose cookie is above
/// that of the Out before it and at most the number of sinks that were taken before the call was entered.
/// The body leaves where there is none, with the number of its Outs (`sentence`). A sink that is taken gets
/// the next cookie (`cookies`). So each sink gets the event at most once, in the order of cookies, and none
/// that was advised during the event gets it (`order`). One that was unadvised before its turn gets none,
/// by `sentence`. Every other one that was advised before the call gets it: none is passed over (`turns`),
/// and none is left when the body leaves (`all`).
pub fn deliveries()
    ensures sentence { (s : Scenario) (h : List Entry) → Formed s → legal s h → length h < 2 ^ 63
        → EachEntry (Delivered s) h }
    ensures cookies { (s : Scenario) (h : List Entry) → Formed s → legal s h → length h < 2 ^ 63
        → EachEntry (TakesNext s) h }
    ensures order { (s : Scenario) (h : List Entry) → legal s h → InOrder h }
    ensures turns { (s : Scenario) (h : List Entry) → Formed s → legal s h → length h < 2 ^ 63
        → NonePassed s h }
    ensures all { (s : Scenario) (h : List Entry) → Formed s → legal s h → length h < 2 ^ 63
        → EachEntry (AllGot s) h }
{}
