//! What is said of memory, and of the numbers of refusals: contracts of functions that do nothing.

ghost use Rattle.pm_memory.specs.CourseImage.{CoursesAreKept};
ghost use Rattle.pm_memory.specs.Heard.{HearingsAreKept};
ghost use Rattle.pm_memory.specs.Memory.{MemoriesAreMeanings};
ghost use Rattle.pm_memory.specs.Names.{RefusalsAreNamed};
ghost use Rattle.pm_memory.specs.SequenceImage.{SequencesAreKept};

use pm_host::images_are_meanings;

/// What the calls of a host leave in its memory is a function of what that means, so that the memories of two hosts that mean
/// the same are equal byte for byte.
pub fn memories_are_meanings()
    ensures { MemoriesAreMeanings }
{
    // law: an image of a host is that of what it means
    images_are_meanings();
}

/// What the calls of a course leave in its memory reads as the course that they speak of.
pub fn courses_are_kept()
    ensures { CoursesAreKept }
{}

/// What a call leaves in the memory of a sequence reads as the sequence that it speaks of, but for courses and ends that no memory keeps: where all
/// of it is written (`written`), and where it heard what became of a frame (`heard`).
pub fn sequences_are_kept()
    ensures written { SequencesAreKept }
    ensures heard { HearingsAreKept }
{}

/// No fault is without its name: each type's own words stand under its number.
pub fn refusals_are_named()
    ensures { RefusalsAreNamed }
{}
