// What holds of the definitions.
ghost use Rattle.market_menus.specs.{Limits.EachHasAMenu, MenusOf.OneListOfMenus, MenusOf.OneMenu};
ghost use Rattle.market_menus.specs.Wanted.{MenuSaysWhatIsWanted};

/// A student's menu says of each rated section what the preferences, the catalogue and the roll
/// say: the same rating, credits, adjustments, clashes and caps. So the best bundle of the menu is
/// the best bundle of what the student wants.
pub fn menu_says_what_is_wanted()
    ensures { MenuSaysWhatIsWanted }
{}

/// A student has one menu by the catalogue, the preferences and the roll.
pub fn one_menu()
    ensures { OneMenu }
{}

/// The students of a roll have one list of menus.
pub fn one_list_of_menus()
    ensures { OneListOfMenus }
{}

/// The students of a roll have menus, where each has preferences such as a desk lets a student
/// have.
pub fn each_has_a_menu()
    ensures { EachHasAMenu }
{}
