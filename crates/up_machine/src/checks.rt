//! The checks of a request against the uploads, in order.
ghost use Rattle.std.specs.Prelude.{◌≡◌, ◌++◌, ◌∷◌, [], Some};
ghost use Rattle.std.specs.FinMap as map;
ghost use Rattle.up_machine.specs.Content.{declared};
ghost use Rattle.up_machine.specs.Decision.{asked_rows, change_by, checked, is_bad_size};
ghost use Rattle.up_machine.specs.Decision.{patch_completes, patch_rows, patch_outcome, commit_rows};
ghost use Rattle.up_machine.specs.declared.refusal.Refusal.TheVariants as refusal;

use crate::plan::Asked;
use crate::refusal::Refusal;
use crate::upload::Upload;
use crate::uploads::Uploads;
use up_events::{Accepted, Id, Kind};
use up_headers::{NotDigits, Patch};

/// The result of a PATCH.
#[derive(Clone, Copy)]
pub struct PatchOutcome {
    /// The number of bytes of the upload after it.
    pub offset: u64,
    /// The length of the upload after it, in bytes, if it is then known.
    pub size: Option<u64>,
    /// The length, if it is declared.
    pub declared: Option<u64>,
    /// Whether the upload is complete after it.
    pub completes: bool,
}

/// The refusal of a PATCH, given what the closures said, or else its result.
pub fn check_commit(
    uploads: &Uploads,
    closed: bool,
    max_size: u64,
    patch: &Patch,
    asked: &Asked,
) -> Result<PatchOutcome, Refusal>
    ensures { let found = map.get uploads.now patch.now.id in
        result ≡ checked
        (commit_rows closed max_size patch.now found
        ++ asked_rows (patch_completes patch.now found) asked.now)
        (patch_outcome patch.now found) }
{
    if closed {
        return Err(Refusal::Closed);
    }
    let Some(upload) = uploads.get(patch.id) else {
        return Err(Refusal::NotFound);
    };
    check_found(upload, max_size, patch, asked)
}

/// The same, for an upload that exists.
fn check_found(
    upload: &Upload,
    max_size: u64,
    patch: &Patch,
    asked: &Asked,
) -> Result<PatchOutcome, Refusal>
    ensures { let found = Some upload.now in
        result ≡ checked
        (patch_rows max_size patch.now upload.now
        ++ asked_rows (patch_completes patch.now found) asked.now)
        (patch_outcome patch.now found) }
{
    let step = check_patch(upload, max_size, patch)?;
    check_asked(step.completes, asked)?;
    Ok(step)
}

/// The refusal of a PATCH of this upload at planning, or else its result.
pub fn check_patch(upload: &Upload, max_size: u64, patch: &Patch) -> Result<PatchOutcome, Refusal>
    ensures { result ≡ checked (patch_rows max_size patch.now upload.now)
        (patch_outcome patch.now (Some upload.now)) }
{
    if upload.kind() == Kind::Final {
        return Err(Refusal::FinalUpload);
    }
    let reached = upload.offset();
    if !patch.media {
        return Err(Refusal::MediaType);
    }
    let Some(offset) = patch.offset else {
        return Err(Refusal::BadOffset);
    };
    if offset != reached {
        return Err(Refusal::WrongOffset);
    }
    let declared = declared(upload, patch.length)?;
    if declared.is_some_and(|size| size > max_size) {
        return Err(Refusal::DeclaredTooLong);
    }
    let size = upload.length().or(declared);
    let count = patch.bytes.len() as u64;
    let most = size.unwrap_or(max_size);
    if reached > most || count > most - reached {
        return Err(Refusal::TooMuch);
    }
    let offset = reached + count;
    let changes = change_by(patch.id, declared, count).is_some();
    Ok(PatchOutcome {
        offset,
        size,
        declared,
        completes: changes && size == Some(offset),
    })
}

/// The length that is declared, if any, or else the refusal of the length that was sent.
fn declared(upload: &Upload, sent: Option<Result<u64, NotDigits>>) -> Result<Option<u64>, Refusal>
    ensures { result ≡ checked
        ((is_bad_size sent upload.now, refusal.BadDeclared) ∷ [])
        (declared sent upload.now.length) }
{
    let size = match sent {
        None => return Ok(None),
        Some(Err(_)) => return Err(Refusal::BadDeclared),
        Some(Ok(size)) => size,
    };
    match upload.length() {
        Some(known) if size == known => Ok(None),
        None if size >= upload.offset() => Ok(Some(size)),
        _ => Err(Refusal::BadDeclared),
    }
}

/// The change for an optional declared length and `count` bytes.
pub fn change_by(id: Id, declared: Option<u64>, count: u64) -> Option<Accepted>
    ensures { result ≡ change_by id declared count }
{
    match declared {
        Some(length) => Some(Accepted::Declared { id, length, count }),
        None if count > 0 => Some(Accepted::Appended { id, count }),
        None => None,
    }
}

/// The refusal of a request if a closure refuses it, or if it would complete an upload and the closures were not asked
/// about that.
pub fn check_asked(completes: bool, asked: &Asked) -> Result<(), Refusal>
    ensures { result ≡ checked (asked_rows completes asked.now) tt }
{
    match asked {
        Asked::Skipped | Asked::Allowed if completes => Err(Refusal::NotAsked),
        Asked::Skipped | Asked::Allowed | Asked::AllowedFinish => Ok(()),
        Asked::Refused { status, reason } => Err(Refusal::ByHook {
            status: *status,
            reason: *reason,
        }),
    }
}
