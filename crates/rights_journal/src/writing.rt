//! Writes that are on the disk before the next one.

ghost use Rattle.std.specs.Prelude.{◌≡◌, ◌⊎◌, ◌+◌, ◌^◌, ◌<◌, ◌≤◌, List, ℕ, [], ◌∷◌, ◌++◌, length, max, IsTrue, IsErrOf, OnOk};
ghost use Rattle.ind_disk.specs.Disk.{Holds, Torn, Only, Leaves, LeavesOnly, IsRun};
ghost use Rattle.ind_disk.specs.declared.disk.DiskError.TheVariants.{Failed, Memory};
ghost use Rattle.rights_journal.specs.Image.{IsBetween};

use ind_disk::{Disk, DiskError};

/// Writes and syncs.
pub fn put<D: Disk>(disk: &mut D, at: u64, bytes: &[u8]) -> Result<(), DiskError>
    requires place { at ≤ (D.standing disk.old).size }
    requires limit { at + length bytes.now ≤ 2 ^ 30 }

    ensures written { OnOk result (IsTrue (D.standing disk.old).tells → Holds (D.standing disk.old).bytes at bytes.now (D.standing disk.new).bytes) }
    ensures size { OnOk result ((D.standing disk.new).size ≡ max (D.standing disk.old).size (at + length bytes.now)) }
    ensures durable { OnOk result (Only (D.standing disk.new).bytes (D.may_leave disk.new)) }
    ensures run { IsRun 2 (D.standing disk.old) (D.standing disk.new) (IsErrOf result Failed) }

    // A crash at any moment leaves what stood there, but for the range.
    ensures any_moment { Only (D.standing disk.old).bytes (D.may_leave disk.old)
        → LeavesOnly D.moment D.left_since disk.old disk.new (Torn at (length bytes.now) (D.standing disk.old).bytes) }

    // With room for both calls only the write may want memory, and then nothing has changed.
    ensures memory { IsErrOf result Memory → 2 ≤ (D.standing disk.old).spare
        → ((D.standing disk.old).size < at + length bytes.now) ⊎ (16 < length bytes.now) }
    ensures unchanged { IsErrOf result Memory → 2 ≤ (D.standing disk.old).spare
        → (D.standing disk.new ≡ D.standing disk.old) × Leaves (D.may_leave disk.old) (D.may_leave disk.new) }
{
    disk.write_at(at, bytes)?;
    disk.sync()?;
    Ok(())
}

/// Puts bytes behind a closed gate, and then opens the gate.
pub fn add_frame<D: Disk>(disk: &mut D, gate: u64, frame: &[u8]) -> Result<(), DiskError>
    requires place { gate < (D.standing disk.old).size }
    requires limit { gate + 1 + length frame.now ≤ 2 ^ 30 }
    requires room { 4 ≤ (D.standing disk.old).spare }
    requires settled { Only (D.standing disk.old).bytes (D.may_leave disk.old) }

    ensures written { OnOk result (IsTrue (D.standing disk.old).tells → (front rest : List ℕ) (closed : ℕ) → length front ≡ gate
        → (D.standing disk.old).bytes ≡ front ++ closed ∷ rest
        → (more : List ℕ) × ((D.standing disk.new).bytes ≡ front ++ 1 ∷ (frame.now ++ more))) }
    ensures size { OnOk result ((D.standing disk.new).size ≡ max (D.standing disk.old).size (gate + 1 + length frame.now)) }
    ensures durable { OnOk result (Only (D.standing disk.new).bytes (D.may_leave disk.new)) }
    ensures run { IsRun 4 (D.standing disk.old) (D.standing disk.new) (IsErrOf result Failed) }

    // A crash at any moment leaves the closed gate with anything behind it, or any gate with the frame behind it.
    ensures any_moment { IsTrue (D.standing disk.old).tells → (front rest : List ℕ) (closed : ℕ) → length front ≡ gate
        → (D.standing disk.old).bytes ≡ front ++ closed ∷ rest
        → LeavesOnly D.moment D.left_since disk.old disk.new (IsBetween front closed frame.now
        (max (D.standing disk.old).size (gate + 1 + length frame.now))) }

    ensures unchanged { IsErrOf result Memory
        → (D.standing disk.new ≡ D.standing disk.old) × Leaves (D.may_leave disk.old) (D.may_leave disk.new) }
{
    put(disk, gate + 1, frame)?;
    put(disk, gate, &[1])?;
    Ok(())
}
