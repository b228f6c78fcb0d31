//! What holds of a storm, in the subject's own words.
ghost use Rattle.std.specs.Prelude.{◌≡◌, ℕ, true, List};
ghost use Rattle.vb_calls.specs.declared.calls.VbCall.{VbCall as CallData};
ghost use Rattle.vb_calls.specs.declared.calls.VbReply.{VbReply as ReplyData};
ghost use Rattle.storm_model.specs.Histories.{GathersStorm, IsStormed};
ghost use Rattle.storm_model.specs.Laws.{AllIsRead, AsInTurn, LinesAddUp, OrdersAgree, SameLine, StoresAlone, StoresStand};
ghost use Rattle.storm_model.specs.Limits.{is_storm};
ghost use Rattle.storm_model.specs.Rows.{LimitsInNumbers, StormsInNumbers, WordsInNumbers, WritesInNumbers};

/// What a legal history of a storm's calls leaves.
pub fn stores_stand()
    ensures { StoresStand }
{}

/// Any two histories in which each client's writes stand in the client's order leave the same keys and
/// values.
pub fn orders_agree()
    ensures { (seed clients writes v : ℕ) → is_storm clients writes ≡ true → OrdersAgree seed clients writes v }
{}

/// They leave what the clients leave one after the other: the documents, the last seqno and the sum of a
/// line.
pub fn clients_in_turn()
    ensures { (seed clients writes v : ℕ) (log : List (CallData × ReplyData)) → is_storm clients writes ≡ true
        → IsStormed seed clients writes v log → AsInTurn seed clients writes v log }
{}

/// A history that was gathered from its callers, where each client's own Stores are its writes, is one in
/// which each client's writes stand in the client's order.
pub fn gathered_storms()
    ensures { (seed clients writes v : ℕ) (log : List (CallData × ReplyData)) (mine : List (ℕ × (CallData × ReplyData))) (part : ℕ → List (ℕ × (CallData × ReplyData)))
        → GathersStorm seed clients writes v log mine part → IsStormed seed clients writes v log }
{}

/// The highs of the four lines add up to the number of writes, and a vBucket has at most 100 documents of
/// each client.
pub fn lines_add_up()
    ensures { (seed clients writes : ℕ) → is_storm clients writes ≡ true → LinesAddUp seed clients writes }
{}

/// In numbers: words, the first writes of some clients, the lines of three small storms, and the limits.
pub fn storms_in_numbers()
    ensures words { WordsInNumbers }
    ensures writes { WritesInNumbers }
    ensures storms { StormsInNumbers }
    ensures limits { LimitsInNumbers }
{}

/// All is saved, and both readers' sums are the sum.
pub fn all_is_read()
    ensures { (seed clients writes : ℕ) → is_storm clients writes ≡ true → AllIsRead seed clients writes }
{}

/// The line of a vBucket does not depend on the order between the clients; and a history that makes Stores
/// alone, behind the readers' requests, ends where these writes do.
pub fn orders_have_one_line()
    ensures line { (seed clients writes v : ℕ) → is_storm clients writes ≡ true → SameLine seed clients writes v }
    ensures stores { StoresAlone }
{}
