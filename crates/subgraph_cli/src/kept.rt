//! The accounts of undecided searches, which a run leaves to its caller.

ghost use Rattle.std.specs.Prelude.{◌≡◌, ◌++◌, IfOk, IfErr};

use crate::stop::Stop;
use fail_account::account::Account;

/// Puts the accounts of an undecided problem behind those that were kept before.
pub(crate) fn keep(mut accounts: Vec<Account>, spent: &mut Vec<Account>) -> Result<(), Stop>
    ensures kept { IfOk result (λ _. spent.new.items ≡ spent.old.items ++ accounts.items) }
    ensures memory { IfErr result (λ stop. stop ≡ Stop.NoMemory) }
{
    match spent.append(&mut accounts) {
        Ok(()) => Ok(()),
        Err(_) => Err(Stop::NoMemory),
    }
}
