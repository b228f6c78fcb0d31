//! Where no link is dialed for a takeover: no line tells of a state, and none waits for the answer to one.

ghost use Rattle.std.specs.Prelude.{◌≡◌, ℕ, true, List, [], ◌∷◌, ◌++◌, Some, None};
ghost use Rattle.script_text.specs.declared.verb.Verb.{Verb};
ghost use Rattle.script_text.specs.declared.verb.Verb.TheVariants as verb;
ghost use Rattle.script_text.specs.declared.verb.LinkVerb.TheVariants as link_verb;
ghost use Rattle.transcript_law.specs.BoundRows.{LawfulHere};
ghost use Rattle.transcript_law.specs.Checked.{CheckedLine};
ghost use Rattle.transcript_law.specs.Chronicles.{Chronicle, after_line, after_lines, empty_chronicle};
ghost use Rattle.transcript_law.specs.Followers.{after_both, both_sent_lines};
ghost use Rattle.transcript_law.specs.LineAnswers.{PutsAsTold};
ghost use Rattle.transcript_law.specs.StateRows.{MayTell, NeverWaits, pulls_at, pumps, puts_state, states_on, states_to};
ghost use Rattle.transcript_law.specs.TakeoverRows.{given_up, put_to};
ghost use Rattle.transcript_law.specs.Takeovers.{NoneDialed};
ghost use Rattle.transcript_law.specs.UndoneRows.{LawfulPump, granted_both, puts_none};
ghost use Rattle.vb_events.specs.declared.event.Answer.{Answer};
ghost use Rattle.vb_events.specs.declared.event.Answer.TheVariants as answer;
ghost use Rattle.vb_events.specs.declared.event.Event.{Event};
ghost use Rattle.vb_events.specs.declared.event.Event.TheVariants as event;
ghost use Rattle.vb_events.specs.declared.event.StreamName.{StreamName};
ghost use Rattle.vb_events.specs.declared.event.Why.TheVariants as why;
ghost use Rattle.vb_types.specs.declared.role.Role.{Role as RoleData};
ghost use Rattle.vb_types.specs.declared.role.Role.TheVariants as role;

/// A pump puts both changes of its stream, and no state behind them, pending or active; nor does any other
/// line tell of a state, on a link's stream or a client's, where no link is dialed for a takeover, whatever
/// else was read before, and whatever else it tells of and answers. On a client's stream none passes where
/// the lines alone are checked, nor one on a link's that has no stream.
pub fn judged_states()
    ensures none { LawfulPump granted_both (both_sent_lines, answer.Pulled 3 why.Idle) }
    ensures pending { LawfulPump granted_both (puts_state role.Pending) → ⊥ }
    ensures active { LawfulPump granted_both (puts_state role.Active) → ⊥ }
    ensures any { (chronicle : Chronicle) → NoneDialed chronicle → (asked : Verb) (front behind : List Event) (stream : StreamName) (put : RoleData) (said : Answer) → LawfulHere chronicle asked (front ++ event.Stated stream put ∷ behind, said) → ⊥ }
    ensures checked { (chronicle : Chronicle) (n c : ℕ) (put : RoleData) (behind : List Event) → CheckedLine chronicle (states_to n c put) behind → ⊥ }
    ensures unfed { (put : RoleData) (behind : List Event) → CheckedLine empty_chronicle (states_on 1 put) behind → ⊥ }
{}

/// A pump that has nothing to put is idle, and waits for no answer to a state; nor does any other pump or
/// pull, whatever was read before, and whatever it puts, unless its link was dialed for a takeover.
pub fn judged_state_waits()
    ensures idle { LawfulPump after_both puts_none }
    ensures pump { (l : ℕ) → NeverWaits (pumps l) }
    ensures pull { (n c : ℕ) → NeverWaits (pulls_at n c) }
{}

/// The state that was put last on a link's stream is read, there and on no other one; behind active, and
/// not behind pending, nobody writes on the branch of the vBucket that feeds the link. On a client's stream
/// it changes nothing. It is a frame that is counted, and a pump of its link may tell of it, but no other
/// line of a link, no pump of another one, and no pull of another client.
pub fn states_are_read()
    ensures pending { (after_lines (put_to true) (states_on 1 role.Pending ∷ [])).stated_of 1 ≡ Some role.Pending }
    ensures last { (after_lines (put_to true) (states_on 1 role.Pending ∷ states_on 1 role.Active ∷ [])).stated_of 1 ≡ Some role.Active }
    ensures other { (after_lines (put_to true) (states_on 2 role.Pending ∷ [])).stated_of 1 ≡ None }
    ensures writes { (after_lines given_up (states_on 1 role.Pending ∷ [])).writer_of 5 ≡ Some (0, 0) }
    ensures nobody { (after_lines given_up (states_on 1 role.Active ∷ [])).writer_of 5 ≡ None }
    ensures client { (chronicle : Chronicle) (n c : ℕ) (put : RoleData) → after_line chronicle (states_to n c put) ≡ chronicle }
    ensures counted { PutsAsTold 9 (states_on 1 role.Pending ∷ []) 1 why.Idle }
    ensures uncounted { PutsAsTold 9 (states_on 1 role.Pending ∷ []) 0 why.Idle → ⊥ }
    ensures told { MayTell (put_to true) (pumps 1) (states_on 1 role.Pending) }
    ensures beside { MayTell (put_to true) (pumps 1) (states_on 2 role.Pending) → ⊥ }
    ensures to_client { MayTell (put_to true) (pumps 1) (states_to 0 1 role.Pending) → ⊥ }
    ensures up { MayTell (put_to true) (verb.AtLink 1 (link_verb.Up 9)) (states_on 1 role.Pending) → ⊥ }
    ensures down { MayTell (put_to true) (verb.AtLink 1 (link_verb.Down 9)) (states_on 1 role.Pending) → ⊥ }
    ensures pull { MayTell (put_to true) (pulls_at 0 2) (states_to 0 1 role.Pending) → ⊥ }
    ensures pull_link { MayTell (put_to true) (pulls_at 0 1) (states_on 1 role.Pending) → ⊥ }
{}
