//! The uploads that a shorter log may leave out completely.
use std::alloc::{AllocError, Global};
use std::collections::BTreeSet;
use std::sync::{Mutex, Wait};
use up_events::Id;
use up_handed::EndedUpload;

/// How many bytes of a log each event of an upload accounts for at least, besides the bytes of the upload. An entry
/// takes twice as many, and has at most two events.
const BYTES_OF_EVENT: u64 = 32;

/// The uploads, and the size of their entries.
#[derive(Drop)]
struct Listed {
    uploads: Vec<EndedUpload>,
    /// About how many bytes of the log their entries take.
    bytes: u64,
}

/// Uploads that have ended and whose events were all handed over. Each takes 32 bytes of memory.
#[derive(Drop)]
pub struct EndedUploads {
    list: Mutex<Listed>,
}

/// About how many bytes of a log the entries of an upload take.
fn bytes_of(upload: &EndedUpload) -> u64 {
    upload
        .events
        .saturating_mul(BYTES_OF_EVENT)
        .saturating_add(upload.bytes)
}

impl EndedUploads {
    /// No upload has ended. Takes no memory.
    pub fn new(alloc: Global) -> EndedUploads {
        EndedUploads {
            list: Mutex::new(Listed {
                uploads: Vec::new(alloc),
                bytes: 0,
            }),
        }
    }

    /// Adds an upload that has ended and whose events were all handed over. If memory runs out, it is not added, and
    /// its entries stay in the log until the server is started again.
    pub fn note<R: Wait>(&self, rt: &R, upload: EndedUpload) {
        let mut list = self.list.lock(rt);
        if list.uploads.push(upload).is_ok() {
            list.bytes = list.bytes.saturating_add(bytes_of(&upload));
        }
    }

    /// About how many bytes of the log the entries of these uploads take.
    pub(crate) fn bytes<R: Wait>(&self, rt: &R) -> u64 {
        self.list.lock(rt).bytes
    }

    /// A copy of the list. The error is that memory ran out.
    pub(crate) fn list<R: Wait>(
        &self,
        rt: &R,
        alloc: Global,
    ) -> Result<Vec<EndedUpload>, AllocError> {
        let list = self.list.lock(rt);
        Vec::from_slice(alloc, &list.uploads)
    }

    /// Removes these uploads, of which the log has no entry any more.
    pub(crate) fn forget<R: Wait>(&self, rt: &R, ids: &BTreeSet<Id>) {
        let mut list = self.list.lock(rt);
        list.uploads.retain(|upload| !ids.contains(&upload.id));
        let mut bytes: u64 = 0;
        for upload in list.uploads.iter() {
            bytes = bytes.saturating_add(bytes_of(upload));
        }
        list.bytes = bytes;
    }
}
