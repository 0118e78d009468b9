//! Laws of JSON texts that are read in pieces.
ghost use Rattle.fb_pieces.specs.ArrayOfElements.{ElementsMakeTheArray};
ghost use Rattle.fb_pieces.specs.ArrayOfRuns.{RunsMakeTheArray};
ghost use Rattle.fb_pieces.specs.ArrayRefused.{ArrayIsThatOfItsElements};
ghost use Rattle.fb_pieces.specs.Blanks.{BlanksChangeNothing};
ghost use Rattle.fb_pieces.specs.CutTexts.{CutMembersAreTheText, CutRunsAreTheText};
ghost use Rattle.fb_pieces.specs.EndsOutside.{ReadRunEndsOutside, ReadTextEndsOutside};
ghost use Rattle.fb_pieces.specs.InBrackets.{ElementIsReadWithoutBrackets, TextIsReadWithoutBrackets};
ghost use Rattle.fb_pieces.specs.CutTextsAreUtf8.{CutArrayIsUtf8, CutObjectIsUtf8};
ghost use Rattle.fb_pieces.specs.LexemesSplit.{LexemesSplit};
ghost use Rattle.fb_pieces.specs.ObjectOfMembers.{MembersMakeTheObject};
ghost use Rattle.fb_pieces.specs.ObjectOfRuns.{RunsMakeTheObject};
ghost use Rattle.fb_pieces.specs.ReadByPieces.{CutArrayIsRead, CutObjectIsRead};
ghost use Rattle.fb_pieces.specs.TokensSplit.{TokensSplit};

/// Where a text may be cut, its lexemes are those of its two parts.
pub fn lexemes_split()
    ensures { LexemesSplit }
{}

/// The tokens of two runs of values with a comma between them are those of the two.
pub fn tokens_split()
    ensures { TokensSplit }
{}

/// A text that is read ends outside strings.
pub fn read_text_ends_outside()
    ensures { ReadTextEndsOutside }
{}

/// So does a run of elements that is read in brackets of its own.
pub fn read_run_ends_outside()
    ensures { ReadRunEndsOutside }
{}

/// Elements that are read one by one make the array that is read of them all.
pub fn elements_make_the_array()
    ensures { ElementsMakeTheArray }
{}

/// Runs of elements that are read in brackets of their own make the array that is read of them all.
pub fn runs_make_the_array()
    ensures { RunsMakeTheArray }
{}

/// What is read in brackets as an array of one element is read without them, with a level less.
pub fn element_is_read_without_brackets()
    ensures { ElementIsReadWithoutBrackets }
{}

/// What is read of an array is the array of what is read of each text between its commas, and nothing where one of them
/// is refused.
pub fn array_is_that_of_its_elements()
    ensures { ArrayIsThatOfItsElements }
{}

/// Members whose names and values are read one by one make the object that is read of them all.
pub fn members_make_the_object()
    ensures { MembersMakeTheObject }
{}

/// Runs of members that are read in braces of their own make the object that is read of them all.
pub fn runs_make_the_object()
    ensures { RunsMakeTheObject }
{}

/// Blanks before a text, and after one that ends outside strings, change nothing of what is read.
pub fn blanks_change_nothing()
    ensures { BlanksChangeNothing }
{}

/// Runs that follow one another are the array's text, with the commas and the bracket.
pub fn cut_runs_are_the_text()
    ensures { CutRunsAreTheText }
{}

/// Members that follow one another are the object's text, with the colons, the commas and the brace.
pub fn cut_members_are_the_text()
    ensures { CutMembersAreTheText }
{}

/// An array's text whose runs are read in brackets of their own is read as the array of them all.
pub fn cut_array_is_read()
    ensures { CutArrayIsRead }
{}

/// An object's text whose members' names and values are read one by one is read as the object of them all.
pub fn cut_object_is_read()
    ensures { CutObjectIsRead }
{}

/// What is read in n brackets is read without them, with n levels less.
pub fn text_is_read_without_brackets()
    ensures { TextIsReadWithoutBrackets }
{}

/// An array's text whose runs are UTF-8 is UTF-8.
pub fn cut_array_is_utf8()
    ensures { CutArrayIsUtf8 }
{}

/// An object's text whose members' names and values are UTF-8 is UTF-8.
pub fn cut_object_is_utf8()
    ensures { CutObjectIsUtf8 }
{}
