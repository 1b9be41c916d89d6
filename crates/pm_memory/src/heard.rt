//! A list in memory hears what became of a frame, and of it only what that changes is read and written.

ghost use Rattle.std.specs.Prelude.{◌≡◌, true, is_some, Some};
ghost use Rattle.pm_host.specs.Told.{entry_told, is_awaited};
ghost use Rattle.pm_stairs.specs.OpenCourse.{course_open, is_job_at as spec_is_job_at};
ghost use Rattle.pm_memory.specs.Heard.{with_restarted, CourseHears, HearsInMemory, ListHears};
ghost use Rattle.pm_memory.specs.ListImage.{list_meant};
ghost use Rattle.pm_memory.specs.SequenceImage.{sequence_meant};

use crate::course_image::{CourseImage, flag};
use crate::list_image::ListImage;
use crate::sequence_image::{SequenceImage, fresh_number, fresh_of};
use pm_course::{Heard, Hosted};
use pm_host::{Stage, Told};
use pm_sequence::{hear_course, heard_fresh};

impl SequenceImage {
    /// Whether there is a course whose job was named last.
    pub fn has_course(&self) -> bool
        ensures { result ≡ is_some (course_open (sequence_meant self.now).list.stairs) }
    {
        self.list.has_course()
    }

    /// Whether the job that stands at this stage is that course's.
    pub fn is_job_at(&self, stage: Stage) -> bool
        ensures { result ≡ spec_is_job_at (sequence_meant self.now).list.stairs stage }
    {
        self.list.is_job_at(stage)
    }

    /// A host, and the course whose job was named last, hear what became of the frame of the stage at which the host's open job stands: how the job
    /// stands then.
    pub fn hear_by<H: Hosted>(&mut self, host: &mut H, stage: Stage, told: Told<'_>) -> Heard
        requires there { H.is_there host.old }
        requires stage { (H.guarded host.old).host.stage ≡ Some stage }
        requires awaited { is_awaited stage told ≡ true }
        requires course { is_some (course_open (sequence_meant self.old).list.stairs) ≡ true }
        ensures there { H.is_there host.new }
        ensures hears { HearsInMemory (H.guarded host.old) self.old stage (entry_told told.entry) result (H.guarded host.new) self.new }
        ensures stage { result.stage ≡ (H.guarded host.new).host.stage }
        ensures written { H.is_written host.old → H.is_written host.new }
    {
        let fresh = heard_fresh(fresh_of(self.told.fresh), &told);
        let heard = self.list.hear_by(host, stage, told);
        self.told.fresh = fresh_number(fresh);
        heard
    }
}

impl ListImage {
    // Whether there is a course whose job was named last.
    fn has_course(&self) -> bool
        ensures { result ≡ is_some (course_open (list_meant self.now).stairs) }
    {
        if self.under.is_reading == 1 {
            self.under.has_coming == 1
        } else {
            self.under.has_step()
        }
    }

    // Whether the job that stands at this stage is that course's.
    fn is_job_at(&self, stage: Stage) -> bool
        ensures { result ≡ spec_is_job_at (list_meant self.now).stairs stage }
    {
        if self.under.is_reading == 1 {
            self.under.has_coming == 1 && self.coming.held().is_job_of(stage)
        } else {
            self.under.has_step() && self.course.held().is_job_of(stage)
        }
    }

    // A host and that course hear it.
    fn hear_by<H: Hosted>(&mut self, host: &mut H, stage: Stage, told: Told<'_>) -> Heard
        requires there { H.is_there host.old }
        requires stage { (H.guarded host.old).host.stage ≡ Some stage }
        requires awaited { is_awaited stage told ≡ true }
        requires course { is_some (course_open (list_meant self.old).stairs) ≡ true }
        ensures there { H.is_there host.new }
        ensures hears { ListHears (H.guarded host.old) self.old stage (entry_told told.entry) result (H.guarded host.new) self.new }
        ensures stage { result.stage ≡ (H.guarded host.new).host.stage }
        ensures written { H.is_written host.old → H.is_written host.new }
    {
        if self.under.is_reading == 1 {
            let (heard, restarted) = self.coming.hear_by(host, stage, told);
            self.put_restarted(restarted);
            return heard;
        }
        let (heard, restarted) = self.course.hear_by(host, stage, told);
        self.put_restarted(restarted);
        heard
    }

    // An answer showed that the part restarted or was exchanged, or didn't.
    fn put_restarted(&mut self, restarted: bool)
        ensures { self.new ≡ with_restarted self.old restarted }
    {
        self.under.is_restarted = flag(
            self.under.is_restarted == 1 || (restarted && self.ends_at_restart == 1),
        );
    }
}

impl CourseImage {
    // The course hears it with a host: how the job stands, and whether that shows a restart.
    fn hear_by<H: Hosted>(&mut self, host: &mut H, stage: Stage, told: Told<'_>) -> (Heard, bool)
        requires there { H.is_there host.old }
        requires stage { (H.guarded host.old).host.stage ≡ Some stage }
        requires awaited { is_awaited stage told ≡ true }
        ensures there { H.is_there host.new }
        ensures hears { CourseHears (H.guarded host.old) self.old stage (entry_told told.entry) result.0 result.1 (H.guarded host.new) self.new }
        ensures stage { result.0.stage ≡ (H.guarded host.new).host.stage }
        ensures written { H.is_written host.old → H.is_written host.new }
    {
        let mut course = self.held();
        let heard = hear_course(&mut course, host, stage, told);
        self.write(&course);
        heard
    }
}
