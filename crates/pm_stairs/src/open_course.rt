//! The course whose job stairs named last.

ghost use Rattle.std.specs.Prelude.{◌≡◌, is_some};
ghost use Rattle.pm_stairs.specs.OpenCourse.{course_open as spec_course_open, is_job_at as spec_is_job_at, with_course as spec_with_course};

use crate::stairs::Stairs;
use pm_course::FrameCourse;
use pm_host::Stage;

impl Stairs {
    // The course whose job was named last.
    pub(crate) fn course_open(&self) -> Option<FrameCourse>
        ensures { result ≡ spec_course_open self.now }
    {
        if self.reading {
            return self.coming;
        }
        match self.under {
            Some(under) => Some(under.course),
            None => None,
        }
    }

    // Whether there is one.
    pub(crate) fn has_course(&self) -> bool
        ensures { result ≡ is_some (spec_course_open self.now) }
    {
        if self.reading {
            self.coming.is_some()
        } else {
            self.under.is_some()
        }
    }

    // Whether the job that stands at this stage is its.
    pub(crate) fn is_job_at(&self, stage: Stage) -> bool
        ensures { result ≡ spec_is_job_at self.now stage }
    {
        if self.reading {
            match &self.coming {
                Some(course) => course.is_job_of(stage),
                None => false,
            }
        } else {
            match &self.under {
                Some(under) => under.course.is_job_of(stage),
                None => false,
            }
        }
    }

    // That course has become this one, and an answer showed a restart or didn't.
    pub(crate) fn put_course(&mut self, course: &FrameCourse, restarted: bool)
        ensures { self.new ≡ spec_with_course self.old course.now restarted }
    {
        self.restarted = self.restarted || restarted;
        if self.reading {
            self.coming = Some(*course);
        } else {
            match &mut self.under {
                Some(under) => under.course = *course,
                None => {}
            }
        }
    }
}
