//! What holds of sessions.

ghost use Rattle.std.specs.Prelude.{◌≡◌, ℕ, Bool, false, All, List, Option};
ghost use Rattle.fjall_journal.specs.declared.recovery_mode.RecoveryMode.{RecoveryMode};
ghost use Rattle.fjall_calls.specs.Holding.{Held};
ghost use Rattle.fjall_calls.specs.Transactions.{Kept};
ghost use Rattle.fjall_lines.specs.declared.command.Command.{Command};
ghost use Rattle.fjall_script.specs.Requests.{is_wild_crash};
ghost use Rattle.fjall_script.specs.Sessions.{ForgesNothing, Session};

/// Where no command is a wild crash, each session of them forges nothing.
pub fn only_wild_crashes_forge()
    ensures { (mode : RecoveryMode) (honest : Bool) (commands rest : List (Option Command)) (ran : Bool) (core : Held) (kept : Kept) (printed : List (List ℕ))
        → All (λ found. is_wild_crash found ≡ false) commands → (session : Session mode honest commands ran core kept printed rest) → ForgesNothing session }
{}
