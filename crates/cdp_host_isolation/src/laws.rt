//! The laws of histories. Each function does nothing: its contract is the law, for every protocol and every history. Programs,
//! pauses, sessions and what steps tell are numbers here; the lemmas below `proofs/` say the same of any types.

ghost use Rattle.std.specs.Prelude.{◌≡◌, ℕ, List, [], ◌++◌, Bool};
ghost use Rattle.cdp_host_isolation.specs.Alone.{solo, unborn, view};
ghost use Rattle.cdp_host_isolation.specs.Histories.{Entry, FitsAll, handed_of, steps_made, whole};
ghost use Rattle.cdp_host_isolation.specs.Makers.{AreOwned, Owns, TakesNone, by, entries_of};
ghost use Rattle.cdp_host_isolation.specs.Meanings.{begin};
ghost use Rattle.cdp_host_isolation.specs.Protocols.{Protocol};
ghost use Rattle.cdp_host_isolation.specs.Seats.{seat_of};
ghost use Rattle.cdp_host_isolation.specs.Stops.{AllStopExactly, IsPausedWell, KeepsEnabled, plain};
ghost use Rattle.cdp_host_isolation.specs.Texts.{AreSent, Fits, HasRoom, Keeps, Texts, made_of};

/// Each session of a history is sent exactly what it would be sent over its view, with no other session there.
pub fn each_session_is_alone()
    ensures { (P : Protocol ℕ ℕ ℕ ℕ) (s c : ℕ) (wait : Bool) (history : List Entry) → FitsAll P (begin c wait) history
        → handed_of P s (begin c wait) history ≡ solo P s (unborn c wait) (view P s (begin c wait) history) }
{}

/// Two histories of which a session sees the same send it the same texts.
pub fn same_views_are_sent_the_same()
    ensures { (P : Protocol ℕ ℕ ℕ ℕ) (s c : ℕ) (wait : Bool) (history other : List Entry) → FitsAll P (begin c wait) history → FitsAll P (begin c wait) other
        → view P s (begin c wait) history ≡ view P s (begin c wait) other → handed_of P s (begin c wait) history ≡ handed_of P s (begin c wait) other }
{}

/// Behind any history the program is where as many steps lead that nobody watches.
pub fn a_history_goes_the_plain_way()
    ensures { (P : Protocol ℕ ℕ ℕ ℕ) (c : ℕ) (wait : Bool) (history : List Entry) → (whole P c wait history).program ≡ plain P (steps_made history) c }
{}

/// Each run of a history stops exactly at the steps that a session names which isn't lost at them.
pub fn runs_stop_exactly_where_named()
    ensures { (P : Protocol ℕ ℕ ℕ ℕ) (c : ℕ) (wait : Bool) (history : List Entry) → FitsAll P (begin c wait) history → AllStopExactly P c 0 (begin c wait) history }
{}

/// Where the program is paused behind a history, a session has the debugger enabled, and the pause is one of where the program
/// stands.
pub fn a_paused_program_has_an_enabled_session()
    ensures { (P : Protocol ℕ ℕ ℕ ℕ) (c : ℕ) (wait : Bool) (history : List Entry) → KeepsEnabled P → IsPausedWell P (whole P c wait history) }
{}

/// Of the texts that a history makes for a session that is still attached, in order, the first were handed out, and the others
/// wait; of one that isn't, those that were handed out are the first.
pub fn texts_are_handed_out_in_order()
    ensures { (P : Protocol ℕ ℕ ℕ ℕ) (E : Texts P) (s c : ℕ) (wait : Bool) (history : List Entry) → AreSent P E → FitsAll P (begin c wait) history
        → Keeps P (handed_of P s (begin c wait) history) (seat_of s (whole P c wait history).seats) (made_of P E s (unborn c wait) (view P s (begin c wait) history)) }
{}

/// Behind any history the texts that wait for a session are as many as may.
pub fn texts_that_wait_fit()
    ensures { (P : Protocol ℕ ℕ ℕ ℕ) (s c : ℕ) (wait : Bool) (history : List Entry) → HasRoom P → Fits P (seat_of s (whole P c wait history).seats) }
{}

/// What a session was handed stays in each longer history, where its owner takes no more of its texts: nobody else takes any.
pub fn owners_alone_take_texts()
    ensures { (P : Protocol ℕ ℕ ℕ ℕ) (k s c : ℕ) (wait : Bool) (history more : List (ℕ × Entry)) → Owns k s history → AreOwned [] (history ++ more) → TakesNone s (by k more)
        → handed_of P s (begin c wait) (entries_of (history ++ more)) ≡ handed_of P s (begin c wait) (entries_of history) }
{}

/// So entries of other makers change nothing of what a session was handed.
pub fn entries_of_others_hand_out_nothing()
    ensures { (P : Protocol ℕ ℕ ℕ ℕ) (k s c : ℕ) (wait : Bool) (history more : List (ℕ × Entry)) → Owns k s history → AreOwned [] (history ++ more) → by k more ≡ []
        → handed_of P s (begin c wait) (entries_of (history ++ more)) ≡ handed_of P s (begin c wait) (entries_of history) }
{}
