// What holds of the definitions.
ghost use Rattle.course_catalog.specs.Laws.{SectionsClashByTest, SectionsClashMutually, CourseNumbersTellCourses};

/// The test of clashing sections, with which definitions compute, is the relation.
pub fn clash_test_is_relation()
    ensures { SectionsClashByTest }
{}

/// Two sections have one course number exactly where they have one course.
pub fn course_numbers_tell_courses()
    ensures { CourseNumbersTellCourses }
{}

/// Two sections clash whichever is named first, and no section clashes with itself.
pub fn clashes_are_mutual()
    ensures { SectionsClashMutually }
{}
