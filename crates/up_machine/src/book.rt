//! The book: the uploads and the journal, and the decisions on requests.
ghost use Rattle.std.specs.Prelude.{◌≡◌, ◌≤◌, ◌<◌, true, false, length, Ok, Some, IfErr, IfOk, IsErr, IsSome, OnErr};
ghost use Rattle.std.specs.FinMap as map;

use crate::ask::{Ask, Point, first_size};
use crate::checks::{change_by, check_asked, check_commit, check_patch};
use crate::fresh::{Fresh, reserve};
use crate::plan::{Asked, Done, Plan};
use crate::refusal::Refusal;
use crate::remains::Remains;
use crate::upload::Upload;
use crate::uploads::Uploads;
use crate::{answer, parts};
use std::alloc::Global;
use std::marker::Model;
use up_events::{Accepted, Changes, Id, Journal, MAX_LANES, MAX_UPLOAD_BYTES, NoMemory};
use up_headers::{NewUpload, Patch, Request};
use up_message::Response;

/// The uploads, and the journal of the changes that led to them. The time of a request grows with the logarithm of the
/// number of uploads and with the number of parts that it joins, apart from the growth of lists. A request copies a
/// small body and a tail of at most 64 KiB, no matter how many bytes it sends, asks for, joins or removes.
#[derive(Drop)]
pub struct Book {
    pub(crate) uploads: Uploads,
    journal: Journal,
    closed: bool,
    pub(crate) max_size: u64,
    /// What uploads were created with, if lanes ask for that.
    pub(crate) fresh: Option<Fresh>,
}

impl Model for Book {
    ghost use Rattle.up_machine.specs.State.{State};
    ghost use Rattle.up_machine.specs.StateCode.{state_code};

    ghost Value = { State };

    ghost coded = { state_code };

    ghost use Rattle.up_machine.specs.Fits.{IsSoundBook};
    ghost use Rattle.up_machine.specs.Fresh.{AreFresh};

    ghost view = { λ a. record {
      content = a.uploads;
      journal = a.journal;
      closed = a.closed;
      max_size = a.max_size;
    } };

    ghost invariant = { λ a. record {
      sound : IsSoundBook (record {
        content = a.uploads;
        journal = a.journal;
        closed = a.closed;
        max_size = a.max_size;
      });
      fresh : AreFresh a.uploads a.journal.accepted a.fresh;
    } };
}

impl Book {
    ghost use Rattle.up_headers.specs.Rows.{first_that_holds};
    ghost use Rattle.up_headers.specs.Creations.{IsAtMost};
    ghost use Rattle.up_headers.specs.Table.{FitsWithin};
    ghost use Rattle.up_headers.specs.declared.request.Request.TheVariants as request;
    ghost use Rattle.up_events.specs.Records.{first_of, forgot, lane_log};
    ghost use Rattle.up_machine.specs.State.{empty_state, counting_state, after, first_bytes};
    ghost use Rattle.up_machine.specs.Decision.{IsExpectedOrNoMemory, decide, decide_plan, is_asked};
    ghost use Rattle.up_machine.specs.Decision.{is_refusal, planned_rows, rows_of, checked};
    ghost use Rattle.up_machine.specs.Fits.{IsSoundBook};
    ghost use Rattle.up_machine.specs.declared.plan.Plan.TheVariants.{Ready as is_ready};

    /// A book without uploads, with a log for each lane. `max_size` is the maximum size of an upload, in bytes.
    /// `NoMemory` if memory runs out.
    pub fn new(alloc: Global, lanes: u64, max_size: u64) -> Result<Book, NoMemory>
        requires some_lane { 0 < lanes }
        requires few_lanes { lanes ≤ MAX_LANES }
        requires small { max_size ≤ MAX_UPLOAD_BYTES }
        ensures { IfOk result (λ book. book ≡ empty_state lanes max_size) }
    {
        Ok(Book {
            uploads: Uploads::new(alloc),
            journal: Journal::new(alloc, lanes)?,
            closed: false,
            max_size,
            fresh: None,
        })
    }

    /// The same, with a journal that counts the changes and does not keep them. `NoMemory` if memory runs out.
    pub fn forgetting(alloc: Global, lanes: u64, max_size: u64) -> Result<Book, NoMemory>
        requires some_lane { 0 < lanes }
        requires few_lanes { lanes ≤ MAX_LANES }
        requires small { max_size ≤ MAX_UPLOAD_BYTES }
        ensures { IfOk result (λ book. book ≡ counting_state lanes max_size) }
    {
        Ok(Book {
            uploads: Uploads::new(alloc),
            journal: Journal::forgetting(alloc, lanes)?,
            closed: false,
            max_size,
            fresh: None,
        })
    }

    /// Closes the book: it accepts no more changes, and its state can still be requested. Closing twice is the same as
    /// closing once.
    pub fn close(&mut self)
        ensures { self.new ≡ record self.old { closed = true } }
    {
        self.closed = true;
    }

    /// Whether the book accepts no more changes.
    pub fn is_closed(&self) -> bool
        ensures { result ≡ self.now.closed }
    {
        self.closed
    }

    /// The journal of the changes.
    pub fn journal(&self) -> &Journal
        ensures journal { result.now ≡ self.now.journal }
        ensures sound { IsSoundBook self.now }
    {
        &self.journal
    }

    /// Makes the journal forget the events of a lane's log before this place.
    pub fn forget(&mut self, lane: u64, place: u64)
        requires there { first_of self.old.journal lane ≤ place }
        requires within { place ≤ length (lane_log self.old.journal lane) }
        ensures { self.new ≡ record self.old { journal = forgot self.old.journal lane place } }
    {
        self.journal.forget(lane, place);
    }

    /// The accepted changes, in order, kept or counted.
    pub fn into_accepted(self) -> Changes
        ensures items { result.items ≡ self.journal.accepted }
        ensures keeps { result.keeps ≡ self.journal.keeps }
    {
        self.journal.into_accepted()
    }

    /// The refusal of a creation at planning, or else the number of first bytes of the upload.
    fn check_creation(&self, new: &NewUpload) -> Result<u64, Refusal>
        ensures { result ≡ checked
            (planned_rows self.now (request.Create new.now))
            (length (first_bytes self.now.content new.now)) }
    {
        if self.closed {
            return Err(Refusal::Closed);
        }
        parts::check_first_bytes(&self.uploads, self.max_size, new)
    }

    /// The refusal of a creation, if any.
    fn check_create(&self, new: &NewUpload, id: Id, asked: &Asked) -> Result<(), Refusal>
        ensures { result ≡ checked (rows_of self.now (request.Create new.now) id asked.now) tt }
    {
        let offset = self.check_creation(new)?;
        check_asked(first_size(new, offset) == Some(offset), asked)?;
        if self.journal.knows(id) {
            return Err(Refusal::IdTaken);
        }
        Ok(())
    }

    /// Notes for the lane of a new upload what it was created with, if lanes ask for that. There is room.
    fn note_details(&mut self, id: Id)
        ensures { self.new ≡ self.old }
    {
        if self.fresh.is_none() {
            return;
        }
        let Ok(Some(details)) = self.details(id) else {
            return;
        };
        let Some(fresh) = &mut self.fresh else {
            return;
        };
        fresh.add(details);
    }

    /// Creates an upload (tus 1.0.0, Creation).
    fn create(
        &mut self,
        alloc: Global,
        new: NewUpload,
        id: Id,
        asked: &Asked,
    ) -> Result<Done, Refusal>
        requires bounded { IsAtMost MAX_UPLOAD_BYTES new.length }
        ensures answer { IsExpectedOrNoMemory result
            (decide self.old (request.Create new) id asked.now) }
        ensures ok { IfOk result (λ done.
            self.new ≡ after self.old (request.Create new) id done.change) }
        ensures err { OnErr result (self.new ≡ self.old) }
    {
        self.check_create(&new, id, asked)?;
        let response = answer::to_create(alloc, id)?;
        reserve(&mut self.fresh, id)?;
        let change = self.uploads.create(alloc, &mut self.journal, new, id)?;
        self.note_details(id);
        Ok(Done {
            response,
            change: Some(change),
        })
    }

    /// Appends bytes to an upload (tus 1.0.0, PATCH).
    fn append(&mut self, alloc: Global, patch: &Patch, asked: &Asked) -> Result<Done, Refusal>
        ensures answer { IsExpectedOrNoMemory result
            (decide self.old (request.Patch patch.now) 0 asked.now) }
        ensures ok { IfOk result (λ done.
            self.new ≡ after self.old (request.Patch patch.now) 0 done.change) }
        ensures err { OnErr result (self.new ≡ self.old) }
    {
        let step = check_commit(&self.uploads, self.closed, self.max_size, patch, asked)?;
        let response = answer::to_patch(alloc, step.offset)?;
        let id = patch.id;
        let count = patch.bytes.len() as u64;
        let Some(change) = change_by(id, step.declared, count) else {
            return Ok(Done::unchanged(response));
        };
        self.uploads.append(
            alloc,
            &mut self.journal,
            change,
            id,
            step.size,
            &patch.bytes,
        )?;
        let change = change_by(id, step.declared, count);
        Ok(Done { response, change })
    }

    /// The same, and puts the body into `remains`.
    fn patch(
        &mut self,
        alloc: Global,
        patch: Patch,
        asked: &Asked,
        remains: &mut Remains,
    ) -> Result<Done, Refusal>
        ensures answer { IsExpectedOrNoMemory result
            (decide self.old (request.Patch patch) 0 asked.now) }
        ensures ok { IfOk result (λ done.
            self.new ≡ after self.old (request.Patch patch) 0 done.change) }
        ensures err { OnErr result (self.new ≡ self.old) }
    {
        let done = self.append(alloc, &patch, asked);
        remains.take_body(patch.bytes);
        done
    }

    /// The refusal of a removal at planning, or else the upload.
    fn check_delete(&self, id: Id) -> Result<&Upload, Refusal>
        ensures ok { IfOk result (λ upload. (self.now.closed ≡ false)
            × (map.get self.now.content id ≡ Some upload.now)) }
        ensures err { IfErr result (λ refused.
            first_that_holds (planned_rows self.now (request.Delete id)) ≡ Some refused) }
    {
        if self.closed {
            return Err(Refusal::Closed);
        }
        self.uploads.get(id).ok_or(Refusal::NotFound)
    }

    /// What closures are asked before an upload is created.
    fn plan_create(&self, alloc: Global, new: &NewUpload) -> Result<Plan, Refusal>
        ensures { IsExpectedOrNoMemory result (decide_plan self.now (request.Create new.now)) }
    {
        let offset = self.check_creation(new)?;
        let made = Ask::to_create(alloc, Point::Create, new, offset)?;
        if first_size(new, offset) != Some(offset) {
            return Ok(Plan::Ask(made));
        }
        let complete = Ask::to_create(alloc, Point::Finish, new, offset)?;
        Ok(Plan::AskBoth(made, complete))
    }

    /// What closures are asked before bytes are appended.
    fn plan_patch(&self, alloc: Global, patch: &Patch) -> Result<Plan, Refusal>
        ensures answer { IsExpectedOrNoMemory result
            (decide_plan self.now (request.Patch patch.now)) }
        ensures ready { decide_plan self.now (request.Patch patch.now) ≡ Ok is_ready
            → result ≡ Ok is_ready }
    {
        if self.closed {
            return Err(Refusal::Closed);
        }
        let Some(upload) = self.uploads.get(patch.id) else {
            return Err(Refusal::NotFound);
        };
        let step = check_patch(upload, self.max_size, patch)?;
        if !step.completes {
            return Ok(Plan::Ready);
        }
        Ok(Plan::Ask(Ask::to_take(alloc, patch, upload, step)?))
    }

    /// What closures are asked before an upload is removed.
    fn plan_delete(&self, alloc: Global, id: Id) -> Result<Plan, Refusal>
        ensures { IsExpectedOrNoMemory result (decide_plan self.now (request.Delete id)) }
    {
        let upload = self.check_delete(id)?;
        Ok(Plan::Ask(Ask::to_remove(alloc, id, upload)?))
    }

    /// Removes an upload (tus 1.0.0, Termination). Its id is never given again.
    fn delete(
        &mut self,
        alloc: Global,
        id: Id,
        asked: &Asked,
        remains: &mut Remains,
    ) -> Result<Done, Refusal>
        ensures answer { IsExpectedOrNoMemory result
            (decide self.old (request.Delete id) 0 asked.now) }
        ensures ok { IfOk result (λ done.
            self.new ≡ after self.old (request.Delete id) 0 done.change) }
        ensures err { OnErr result (self.new ≡ self.old) }
    {
        self.check_delete(id)?;
        check_asked(false, asked)?;
        let response = answer::to_delete(alloc);
        self.journal.note(Accepted::Terminated { id })?;
        self.uploads.remove(id, remains);
        let change = Some(Accepted::Terminated { id });
        Ok(Done { response, change })
    }

    /// The plan of a request: the response to a request that changes nothing, the question for closures before a
    /// request that creates, completes or removes an upload, that other bytes can be committed, or the refusal.
    /// `NoMemory` is returned only if nothing else refuses the request, and never for other bytes.
    pub fn plan(&self, alloc: Global, request: &Request) -> Result<Plan, Refusal>
        ensures answer { IsExpectedOrNoMemory result (decide_plan self.now request.now) }
        ensures ready { decide_plan self.now request.now ≡ Ok is_ready
            → result ≡ Ok is_ready }
    {
        match request {
            Request::Options => Ok(Plan::Answer(self.options(alloc)?)),
            Request::Head(id) => Ok(Plan::Answer(self.head(alloc, *id)?)),
            Request::Get(id) => Ok(Plan::Answer(self.get(alloc, *id)?)),
            Request::Create(new) => self.plan_create(alloc, new),
            Request::Patch(patch) => self.plan_patch(alloc, patch),
            Request::Delete(id) => self.plan_delete(alloc, *id),
        }
    }

    /// Decides on a request, and carries it out if nothing refuses it. `id` is the id of a new upload; other requests
    /// have the id in them. A request that is refused changes nothing. `NoMemory` is returned only if nothing else
    /// refuses the request. Once the book is closed, nothing changes. If a closure refuses a creation, an append or a
    /// removal, the request is refused, for this reason or for another one, and changes nothing. What the request
    /// leaves over goes into `remains`, so that it can be dropped later.
    pub fn commit(
        &mut self,
        alloc: Global,
        request: Request,
        id: Id,
        asked: &Asked,
        remains: &mut Remains,
    ) -> Result<Done, Refusal>
        requires bounded { FitsWithin MAX_UPLOAD_BYTES request }
        ensures answer { IsExpectedOrNoMemory result (decide self.old request id asked.now) }
        ensures ok { IfOk result (λ done. self.new ≡ after self.old request id done.change) }
        ensures err { OnErr result (self.new ≡ self.old) }
        ensures open { IfOk result (λ done. IsSome done.change → self.old.closed ≡ false) }
        ensures closure_refuses { is_asked request ≡ true → is_refusal asked.now ≡ true
            → IsErr result × (self.new ≡ self.old) }
    {
        match request {
            Request::Options => Ok(Done::unchanged(self.options(alloc)?)),
            Request::Create(new) => self.create(alloc, new, id, asked),
            Request::Head(id) => Ok(Done::unchanged(self.head(alloc, id)?)),
            Request::Patch(patch) => self.patch(alloc, patch, asked, remains),
            Request::Delete(id) => self.delete(alloc, id, asked, remains),
            Request::Get(id) => Ok(Done::unchanged(self.get(alloc, id)?)),
        }
    }
}
