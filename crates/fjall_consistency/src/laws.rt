//! What holds of the calls of every life.

ghost use Rattle.std.specs.Prelude.{ℕ, List};
ghost use Rattle.fjall_base.specs.Store.{Store};
ghost use Rattle.fjall_history.specs.declared.reply.Reply.{Reply};
ghost use Rattle.fjall_calls.specs.declared.call.TxCall.{TxCall};
ghost use Rattle.fjall_consistency.specs.Consistency.{AreAnswers, begins};
ghost use Rattle.fjall_consistency.specs.Serial.{ActInOrder, ChangesByCommits};

/// Optimistic transactions act one after another: where the map of a keyspace changes through their commits alone, each key
/// of it that one read has, as that one commits what it wrote, the value that it had as that one began.
pub fn optimistic_transactions_act_in_order()
    ensures { (id : ℕ) (s : Store) (calls : List TxCall) (replies : List Reply) → AreAnswers (begins s) calls replies
        → ChangesByCommits id (begins s) calls replies → ActInOrder id (begins s) calls replies }
{}
