//! What an entry changes in the lanes.
ghost use Rattle.std.specs.Prelude.{◌≡◌, ◌+◌, [], ◌∷◌, false, true, not, if◌then◌else◌};
ghost use Rattle.std.specs.Prelude.{length, IsOk, OnOk, OnErr, None, Some, slice_index_or, slice_set};
ghost use Rattle.com_base.specs.declared.apartments.TheConstants.{FIRST_STA};
ghost use Rattle.com_model.specs.Answers.{is_S_OK};
ghost use Rattle.com_model.specs.Apartments.{Initialises, Uninitialises, home_after, count_after, makes_sta};
ghost use Rattle.com_model.specs.Apartments.{ends_sta, with_last};
ghost use Rattle.com_model.specs.Clock.{Names, Keeps, filter_effect};
ghost use Rattle.com_model.specs.Lists.{first, where_true, without_first};
ghost use Rattle.com_model.specs.Openers.{Closes, Leaves, left_on};
ghost use Rattle.com_model.specs.State.{changed_at, filters_change, made_change, mail_change, mail_lane};
ghost use Rattle.com_model.specs.State.{quit_change, quit_lane};
ghost use Rattle.com_model.specs.Waiting.{no_mail, mail_after, bound_reached, Takes, Asks, Forgets};
ghost use Rattle.com_state.specs.Parts.{openers_at, served_at, lanes_after};
ghost use Rattle.com_lane_lists.specs.Rooms.{HasMark, HasSlot, no_opener, no_word};
ghost use Rattle.com_lanes.specs.Changes.{IsNumber, IsBelow, NamesStas, HasRoom, closed, natural, opened};
ghost use Rattle.com_lanes.specs.Rooms.{HasEnd, HasSpace, HasSta, HasWordTo};

use crate::columns::{
    ask_at, bring_at, count_left, count_success, drop_filter, end_quit, end_sta, forget_at,
    home_left, make_sta, name_filter, pop_opener, push_opener, put, quit_at, reserve_end,
    reserve_mark, reserve_opener, reserve_sta, reserve_word, take_at,
};
use crate::lanes::Lanes;
use com_base::{HResult, Memory, Mode};
use com_model::{Deed, Opener};

impl Lanes {
    /// Makes room for all that an entry of a lane brings. The only error is want of memory.
    pub fn reserve(&mut self, lane: u32, deed: &Deed) -> Result<(), Memory>
        ensures tables { self.new.tables ≡ self.old.tables }
        ensures space { OnOk result (HasSpace self.new lane deed.now) }
    {
        match deed {
            Deed::Pump { .. } => reserve_opener(&mut self.openers, lane),
            Deed::Out { .. } => reserve_opener(&mut self.openers, lane),
            Deed::Enter { .. } => reserve_opener(&mut self.openers, lane),
            Deed::Init { mode, home, hr } => reserve_sta(&mut self.stas, lane, *mode, *home, *hr),
            Deed::Uninit { home, count } => reserve_end(&mut self.stas, *home, *count),
            Deed::Post { lane: to, .. } => reserve_word(&mut self.mail, *to),
            Deed::Pending { .. } => reserve_mark(&mut self.mail, lane),
            _ => Ok(()),
        }
    }

    /// Makes of the lanes what an entry of a lane makes of them, for which there is room. It takes no memory.
    ///
    /// An entry that makes a single-threaded apartment names the next one, and one that ends one names one
    /// that was made.
    pub fn apply(&mut self, lane: u32, deed: &Deed)
        requires stas { NamesStas self.old.tables deed.now }
        requires room { HasRoom self.old.tables }
        requires space { HasSpace self.old lane deed.now }
        ensures { self.new.tables ≡ lanes_after self.old.tables (record { lane = lane; deed = deed.now }) }
    {
        match deed {
            Deed::Pump { bound } => self.open(lane, Opener::Pumps { bound: *bound }),
            Deed::Out { call, .. } => self.open(lane, Opener::Waits { call: *call }),
            Deed::Enter {
                call,
                object,
                apartment,
                ..
            } => self.open(
                lane,
                Opener::Enters {
                    call: *call,
                    object: *object,
                    apartment: *apartment,
                },
            ),
            Deed::EndPump => self.end_pump(lane),
            Deed::Back { call, .. } => self.back(lane, *call),
            Deed::Leave { call, .. } => self.leave(lane, *call),
            Deed::Init { mode, home, hr } => self.initialise(lane, *mode, *home, *hr),
            Deed::Uninit { home, count } => self.uninitialise(lane, *home, *count),
            Deed::SetFilter { filter, hr } => self.set_filter(lane, *filter, *hr),
            Deed::Post { lane: to, word, hr } => self.post(lane, *to, *word, *hr),
            Deed::Word { .. } => self.take_word(lane),
            Deed::Pending { call, answer, .. } => self.ask(lane, *call, *answer),
            Deed::Quit { lane: to, hr } => self.quit(lane, *to, *hr),
            Deed::End => self.finish(lane),
            _ => {}
        }
    }

    /// Opens one more in a lane. A pump that is opened has admitted no body yet. The only error is want of
    /// memory, and then nothing changed; it does not come where there is room for one more. A lane that there
    /// is not takes nothing.
    pub fn push(&mut self, lane: u32, opener: Opener) -> Result<(), Memory>
        ensures ok { OnOk result (self.new.tables ≡ opened self.old.tables lane opener) }
        ensures err { OnErr result (self.new.tables ≡ self.old.tables) }
        ensures room { HasSlot (slice_index_or self.old.openers lane no_opener) → IsOk result }
    {
        reserve_opener(&mut self.openers, lane)?;
        self.open(lane, opener);
        Ok(())
    }

    /// Closes the innermost of a lane, and returns it. `None` exactly where nothing is open in the lane, or
    /// there is no such lane.
    pub fn pop(&mut self, lane: u32) -> Option<Opener>
        ensures top { result ≡ first (openers_at self.old.tables lane) }
        ensures tables { self.new.tables ≡ closed self.old.tables lane }
    {
        let opener = self.top(lane);
        pop_opener(&mut self.openers, lane);
        opener
    }

    // Opens one more, for which there is room.
    fn open(&mut self, lane: u32, opener: Opener)
        requires slot { HasSlot (slice_index_or self.old.openers lane no_opener) }
        ensures { self.new.tables ≡ opened self.old.tables lane opener }
    {
        push_opener(&mut self.openers, lane, opener);
        match opener {
            Opener::Pumps { .. } => put(&mut self.served, lane, 0),
            Opener::Waits { .. } => {}
            Opener::Enters { .. } => {}
        }
    }

    // Closes a pump, by the quit that stands where its bound is not reached.
    fn end_pump(&mut self, lane: u32)
        ensures { self.new.tables ≡ record self.old.tables {
          openers = slice_set self.old.tables.openers lane (without_first (openers_at self.old.tables lane));
          quits = changed_at (where_true (not (bound_reached (openers_at self.old.tables lane)
              (served_at self.old.tables lane))) (λ b. false))
              lane false self.old.tables.quits;
        } }
    {
        let by_quit = !self.bound_is_reached(lane);
        pop_opener(&mut self.openers, lane);
        end_quit(&mut self.quits, lane, by_quit);
    }

    // Closes the wait for a call, and forgets what the call was asked.
    fn back(&mut self, lane: u32, call: u32)
        ensures { self.new.tables ≡ record self.old.tables {
          openers = slice_set self.old.tables.openers lane (without_first (openers_at self.old.tables lane));
          mail =
              slice_set self.old.tables.mail lane
              (mail_after (Forgets call) (slice_index_or self.old.tables.mail lane no_mail));
        } }
    {
        pop_opener(&mut self.openers, lane);
        forget_at(&mut self.mail, lane, call);
    }

    // Closes a body.
    #[tactic(auto, using(crate::proofs::Rows::popped_row))]
    fn leave(&mut self, lane: u32, call: u32)
        requires { HasRoom self.old.tables }
        ensures { self.new.tables ≡ record self.old.tables {
          openers = slice_set self.old.tables.openers lane (without_first (openers_at self.old.tables lane));
          served = slice_set self.old.tables.served lane
              (left_on (Closes (Leaves call)) (without_first (openers_at self.old.tables lane))
              (served_at self.old.tables lane));
        } }
    {
        pop_opener(&mut self.openers, lane);
        count_left(&mut self.served, &self.openers, lane, call);
    }

    // A lane is initialised, or refused.
    fn initialise(&mut self, lane: u32, mode: Mode, home: u32, hr: HResult)
        requires next { IsNumber (length self.old.tables.stas + FIRST_STA) (makes_sta (Deed.Init mode home hr)) }
        requires room { HasRoom self.old.tables }
        requires space { HasSta self.old.stas lane (makes_sta (Deed.Init mode home hr)) }
        ensures { self.new.tables ≡ record self.old.tables {
          homes = slice_set self.old.tables.homes lane (Some home);
          counts =
              slice_set self.old.tables.counts lane
              (count_after (Initialises home hr) (slice_index_or self.old.tables.counts lane 0));
          filters =
              changed_at (filters_change (if is_S_OK hr then Names None else Keeps)) lane None
              self.old.tables.filters;
          made = changed_at (made_change (makes_sta (Deed.Init mode home hr))) lane [] self.old.tables.made;
          stas = with_last self.old.tables.stas (makes_sta (Deed.Init mode home hr));
        } }
    {
        make_sta(&mut self.stas, lane, mode, home, hr);
        put(&mut self.homes, lane, Some(home));
        count_success(&mut self.counts, lane, home, hr);
        name_filter(&mut self.filters, lane, None, hr);
    }

    // A lane is uninitialised.
    fn uninitialise(&mut self, lane: u32, home: Option<u32>, count: u32)
        requires below { IsBelow (length self.old.tables.stas + FIRST_STA) (ends_sta (Deed.Uninit home count)) }
        requires space { HasEnd self.old.stas (ends_sta (Deed.Uninit home count)) }
        ensures { self.new.tables ≡ record self.old.tables {
          homes =
              slice_set self.old.tables.homes lane
              (home_after (Uninitialises home count) (slice_index_or self.old.tables.homes lane None));
          counts = slice_set self.old.tables.counts lane count;
          filters =
              changed_at (filters_change (filter_effect (Deed.Uninit home count))) lane None
              self.old.tables.filters;
          ended = with_last self.old.tables.ended (ends_sta (Deed.Uninit home count));
        } }
    {
        end_sta(&mut self.stas, home, count);
        put(&mut self.homes, lane, home_left(home, count));
        put(&mut self.counts, lane, count);
        drop_filter(&mut self.filters, lane, home, count);
    }

    // A lane names its filter.
    fn set_filter(&mut self, lane: u32, filter: Option<u32>, hr: HResult)
        ensures { self.new.tables ≡ record self.old.tables {
          filters =
              changed_at (filters_change (if is_S_OK hr then Names filter else Keeps)) lane None
              self.old.tables.filters;
        } }
    {
        name_filter(&mut self.filters, lane, filter, hr);
    }

    // A lane posts a word.
    #[tactic(auto, using(crate::proofs::Rows::posted_seen))]
    fn post(&mut self, lane: u32, to: i64, word: i64, hr: HResult)
        requires room { HasRoom self.old.tables }
        requires space { HasWordTo self.old.mail (natural to) }
        ensures { self.new.tables ≡ record self.old.tables {
          mail =
              changed_at (mail_change (Deed.Post to word hr)) (mail_lane lane (Deed.Post to word hr)) no_mail
              self.old.tables.mail;
        } }
    {
        bring_at(&mut self.mail, to, word, hr);
    }

    // A lane takes its first word.
    fn take_word(&mut self, lane: u32)
        ensures { self.new.tables ≡ record self.old.tables {
          mail =
              slice_set self.old.tables.mail lane
              (mail_after Takes (slice_index_or self.old.tables.mail lane no_mail));
        } }
    {
        take_at(&mut self.mail, lane);
    }

    // A lane's filter is asked about a word.
    fn ask(&mut self, lane: u32, call: u32, answer: u8)
        requires space { HasMark (slice_index_or self.old.mail lane no_word) }
        ensures { self.new.tables ≡ record self.old.tables {
          mail =
              slice_set self.old.tables.mail lane
              (mail_after (Asks call answer) (slice_index_or self.old.tables.mail lane no_mail));
        } }
    {
        ask_at(&mut self.mail, lane, call, answer);
    }

    // A lane asks a pump to end.
    #[tactic(auto, using(crate::proofs::Rows::quit_seen))]
    fn quit(&mut self, lane: u32, to: i64, hr: HResult)
        ensures { self.new.tables ≡ record self.old.tables {
          quits = changed_at
              (quit_change (not (bound_reached (openers_at self.old.tables lane)
              (served_at self.old.tables lane)))
              (Deed.Quit to hr))
              (quit_lane lane (Deed.Quit to hr)) false self.old.tables.quits;
        } }
    {
        quit_at(&mut self.quits, to, hr);
    }

    // A lane ends.
    fn finish(&mut self, lane: u32)
        ensures { self.new.tables
            ≡ record self.old.tables { over = slice_set self.old.tables.over lane true } }
    {
        put(&mut self.over, lane, true);
    }
}
