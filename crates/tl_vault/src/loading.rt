ghost use Rattle.std.specs.Prelude.{◌≡◌, ◌+◌, ◌≤◌, ℕ, List, length, take, IfOk, IfErr, IsTrue};
ghost use Rattle.sha2.specs.Sha256.{sha256};
ghost use Rattle.tl_io.specs.Counts.{Rises};
ghost use Rattle.tl_vault.specs.Load.{kept_len, Fits, IfDamaged, IfFailed, IfHeld, IsDamage, IsValueAnd};

use std::alloc::Global;
use tl_io::{Depot, DepotError};
use tl_model::{Damage, Saved};
use tl_types::{Bytes, Digest, Outcome, sha256_digest};

/// Why a load gave nothing.
#[derive(Clone, Copy, Debug, PartialEq, Eq)]
pub enum LoadError {
    /// The depot met a fault.
    Fault,
    /// The depot answered bytes of another length or digest than was kept.
    Damaged(Damage),
    /// Memory ran out.
    NoMemory,
}

impl From<DepotError> for LoadError {
    ghost use Rattle.tl_vault.specs.FromDepot.{of_depot};
    ghost use Rattle.std.specs.Prelude.{◌≡◌};

    ghost from_gives = { λ error e. e ≡ of_depot error };

    fn from(error: DepotError) -> LoadError {
        match error {
            DepotError::Failed => LoadError::Fault,
            DepotError::NoMemory => LoadError::NoMemory,
        }
    }
}

impl From<Damage> for LoadError {
    ghost use Rattle.std.specs.Prelude.{◌≡◌};
    ghost use Rattle.tl_vault.specs.declared.loading.LoadError.TheVariants.{Damaged};

    ghost from_gives = { λ damage e. e ≡ Damaged damage };

    fn from(damage: Damage) -> LoadError {
        LoadError::Damaged(damage)
    }
}

/// What was kept, back from the depot. A fault is answered without the depot. Kept bytes are asked for
/// by one load and no save, one byte more than their length, so that longer ones are seen. `Fault` comes only where the
/// depot's count of faults rose in this call; `Damaged` exactly where the depot answered bytes of
/// another length or digest.
pub fn load<D: Depot>(
    alloc: Global,
    depot: &mut D,
    saved: &Saved<D::Ticket>,
) -> Result<Outcome, LoadError>
    requires { kept_len saved.now ≤ 1048576 }
    ensures failed { IfFailed saved.now (λ code. result ≡ Ok (Outcome.Fault code)) }
    ensures unasked { IfFailed saved.now (λ code. depot.new ≡ depot.old) }
    ensures asked { IfHeld saved.now (λ ticket len digest. D.loads depot.old depot.new) }
    ensures value { IfHeld saved.now (λ ticket len digest. IfOk result (λ outcome.
        IsValueAnd outcome (Fits len digest))) }
    ensures told { IfHeld saved.now (λ ticket len digest. IfOk result (λ outcome.
        IsValueAnd outcome (λ bytes. IsTrue D.Ticket.tells → bytes ≡ D.Ticket.content ticket))) }
    ensures damaged { IfHeld saved.now (λ ticket len digest. IfDamaged result (λ damage.
        (bytes : List ℕ) × (IsDamage len digest bytes damage
        × (IsTrue D.Ticket.tells → bytes ≡ take (len + 1) (D.Ticket.content ticket))))) }
    ensures undamaged { IfHeld saved.now (λ ticket len digest. IsTrue D.Ticket.tells →
        Fits len digest (D.Ticket.content ticket) → IfDamaged result (λ damage. ⊥)) }
    ensures fault { result ≡ Err LoadError.Fault → Rises (D.faults depot.old) (D.faults depot.new) }
    ensures never_falls { D.faults depot.old ≤ D.faults depot.new }
{
    match saved {
        Saved::Failed(code) => Ok(Outcome::Fault(*code)),
        Saved::Held {
            ticket,
            len,
            digest,
        } => {
            let bytes = depot.load(alloc, ticket, *len as usize + 1)?;
            Ok(Outcome::Value(fitting(bytes, *len, *digest)?))
        }
    }
}

// The bytes, where they have this length and digest.
fn fitting(bytes: Vec<u8>, kept_len: u64, kept: Digest) -> Result<Bytes, Damage>
    requires { kept_len ≤ 1048576 }
    ensures same { IfOk result (λ value. value ≡ bytes.items) }
    ensures fits { IfOk result (λ value. Fits kept_len kept value) }
    ensures damaged { IfErr result (λ damage. IsDamage kept_len kept bytes.items damage) }
{
    let damage = Damage {
        kept_len,
        kept,
        got_len: bytes.len() as u64,
        got: sha256_digest(bytes.as_slice()),
    };
    if damage.got_len != kept_len || damage.got != kept {
        return Err(damage);
    }
    Bytes::new(bytes).ok_or(damage)
}
