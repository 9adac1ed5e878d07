//! What officers may allow, and how it is written.
ghost use Rattle.std.specs.Prelude.{◌≡◌, ◌↔◌, ◌||◌, ◌++◌, ◌+◌, ◌≤◌, ℕ, List, length, Option, IsTrue, MatchOption, ◌≢◌, is_none, take, slice_index};
ghost use Rattle.std.specs.Option.{option_eq};
ghost use Rattle.hsm_auth.specs.Activities.{same_category, same_place, same_activity, covers, Allows, category_text, type_text, place_text, set_text, text_of, IsNamedSet, MayName, Names, activity_of};

use arrayvec::ArrayVec;
use hsm_types::{KeyType, by_code, code};

/// The most bytes that `Activity::text` holds. No activity's text is longer.
pub const MAX_TEXT: usize = 32;

/// What is done with a key or a PIN under an activity.
#[derive(Clone, Copy, Debug, Default, PartialEq, Eq)]
pub enum Category {
    #[default]
    Generate,
    Import,
    Export,
    /// A key is drawn or formed in clear components.
    Component,
    /// A PIN is shown in the clear.
    PinClear,
}

/// Where an activity takes place.
#[derive(Clone, Copy, Debug, PartialEq, Eq)]
pub enum Place {
    Host,
    Console,
}

/// An activity that officers may allow. Without a type it stands for every type, without a place for both places, and
/// without a set for every LMK set.
#[derive(Clone, Copy, Debug, Default, PartialEq, Eq)]
pub struct Activity {
    pub category: Category,
    pub ty: Option<KeyType>,
    pub place: Option<Place>,
    /// The number of an LMK set, 0 to 3. An activity of another number has no text that is read.
    pub set: Option<u8>,
}

impl Category {
    fn word(self) -> &'static [u8]
        ensures word { result.now ≡ category_text self }
        ensures short { length result.now ≤ 9 }
    {
        match self {
            Category::Generate => b"generate",
            Category::Import => b"import",
            Category::Export => b"export",
            Category::Component => b"component",
            Category::PinClear => b"pin.clear",
        }
    }

    // The category whose word begins with the letter.
    fn by_letter(letter: u8) -> Option<Category>
        ensures { (c : Category) (r : List ℕ) → letter ≡ slice_index (category_text c ++ r) 0 → result ≡ Some c }
    {
        match letter {
            b'g' => Some(Category::Generate),
            b'i' => Some(Category::Import),
            b'e' => Some(Category::Export),
            b'c' => Some(Category::Component),
            b'p' => Some(Category::PinClear),
            _ => None,
        }
    }
}

// What follows the word, where the text begins with it.
fn after<'a>(text: &'a [u8], word: &[u8]) -> Option<&'a [u8]>
    ensures { MatchOption result ((rest : List ℕ) → text.now ≢ word.now ++ rest) (λ rest. text.now ≡ word.now ++ rest.now) }
{
    text.strip_prefix(word)
}

// The category at the front, and what follows it.
fn category_at(text: &[u8]) -> Option<(Category, &[u8])>
    ensures { MatchOption result ((c : Category) (rest : List ℕ) → text.now ≢ category_text c ++ rest) (λ r. text.now ≡ category_text r.0 ++ r.1.now) }
{
    let category = Category::by_letter(*text.first()?)?;
    let rest = after(text, category.word())?;
    Some((category, rest))
}

// The type at the front, after a point.
fn type_at(text: &[u8]) -> Option<KeyType>
    ensures { (ty : KeyType) → (result ≡ Some ty) ↔ (take 4 text.now ≡ type_text (Some ty)) }
{
    let rest = after(text, b".")?;
    let (code, _) = rest.split_first_chunk()?;
    by_code(code)
}

// The type that the text names after the category, and what follows it.
fn typed(category: Category, text: &[u8]) -> (Option<KeyType>, &[u8])
    ensures split { text.entry.now ≡ type_text result.0 ++ result.1.now }
    ensures may { MayName category result.0 }
    ensures every { (t : Option KeyType) (p : Option Place) (n : Option ℕ) → MayName category t → text.entry.now ≡ type_text t ++ (place_text p ++ set_text n) → result.0 ≡ t }
{
    match type_at(text) {
        Some(ty) if category != Category::PinClear => (Some(ty), &text[4..]),
        _ => (None, text),
    }
}

// The place that the text names at its front, and what follows it.
fn placed(text: &[u8]) -> (Option<Place>, &[u8])
    ensures split { text.entry.now ≡ place_text result.0 ++ result.1.now }
    ensures every { (p : Option Place) (n : Option ℕ) → text.entry.now ≡ place_text p ++ set_text n → result.0 ≡ p }
{
    if let Some(rest) = after(text, b".host") {
        return (Some(Place::Host), rest);
    }
    match after(text, b".console") {
        Some(rest) => (Some(Place::Console), rest),
        None => (None, text),
    }
}

// The set that the whole text names. The empty text names none.
fn set_of(text: &[u8]) -> Option<Option<u8>>
    ensures { (n : Option ℕ) → (result ≡ Some n) ↔ (IsNamedSet n × (text.now ≡ set_text n)) }
{
    match text {
        b"" => Some(None),
        b".lmk00" => Some(Some(0)),
        b".lmk01" => Some(Some(1)),
        b".lmk02" => Some(Some(2)),
        b".lmk03" => Some(Some(3)),
        _ => None,
    }
}

// The activity that the text is put together from.
fn activity_at(text: &[u8]) -> Option<Activity>
    ensures { (a : Activity) → (result ≡ Some a) ↔ Names text.now a }
{
    let (category, rest) = category_at(text)?;
    let (ty, rest) = typed(category, rest);
    let (place, rest) = placed(rest);
    let set = set_of(rest)?;
    Some(Activity {
        category,
        ty,
        place,
        set,
    })
}

type Text = ArrayVec<u8, MAX_TEXT>;

fn put(text: &mut Text, part: &[u8])
    requires { length text.old.items + length part.now ≤ MAX_TEXT }
    ensures { text.new.items ≡ text.old.items ++ part.now }
{
    let _ = text.try_extend_from_slice(part);
}

fn put_type(text: &mut Text, ty: Option<KeyType>)
    requires { length text.old.items + 4 ≤ MAX_TEXT }
    ensures put { text.new.items ≡ text.old.items ++ type_text ty }
    ensures short { length text.new.items ≤ length text.old.items + 4 }
{
    if let Some(ty) = ty {
        put(text, b".");
        put(text, &code(ty));
    }
}

fn put_place(text: &mut Text, place: Option<Place>)
    requires { length text.old.items + 8 ≤ MAX_TEXT }
    ensures put { text.new.items ≡ text.old.items ++ place_text place }
    ensures short { length text.new.items ≤ length text.old.items + 8 }
{
    match place {
        None => {}
        Some(Place::Host) => put(text, b".host"),
        Some(Place::Console) => put(text, b".console"),
    }
}

fn put_set(text: &mut Text, set: Option<u8>)
    requires { length text.old.items + 6 ≤ MAX_TEXT }
    ensures put { text.new.items ≡ text.old.items ++ set_text set }
{
    if let Some(set) = set {
        put(text, b".lmk");
        put(text, &[b'0' + set / 10, b'0' + set % 10]);
    }
}

impl Activity {
    /// The activity that the text names: a category; a point and a type code unless the category is `pin.clear`; a point
    /// and a place; and `.lmk` with the two digits of a set, 00 to 03. Type, place and set may lack. None exactly where no
    /// activity has the text.
    pub fn read(text: &[u8]) -> Option<Activity>
        ensures named { (a : Activity) → (result ≡ Some a) ↔ Names text.now a }
        ensures value { result ≡ activity_of text.now }
    {
        activity_at(text)
    }

    /// The text of the activity, as `read` reads it. It takes no memory.
    /// An activity of `pin.clear` with a type, which no text names, is written with its type in the type's place, and a set
    /// from 4 on, which no text names, with its digits.
    pub fn text(&self) -> ArrayVec<u8, MAX_TEXT>
        ensures { result.items ≡ text_of self.now }
    {
        let mut text = ArrayVec::new();
        put(&mut text, self.category.word());
        put_type(&mut text, self.ty);
        put_place(&mut text, self.place);
        put_set(&mut text, self.set);
        text
    }

    /// Whether the two are the same activity.
    pub fn is(&self, other: &Activity) -> bool
        ensures value { result ≡ same_activity self.now other.now }
        ensures equal { IsTrue result ↔ (self.now ≡ other.now) }
    {
        self == other
    }
}

// Whether the grant names none, or the two name the same.
fn allows<T: Copy + PartialEq>(grant: Option<T>, need: Option<T>) -> bool
    ensures { result ≡ is_none grant || option_eq T.eq grant need }
{
    grant.is_none() || grant == need
}

/// Whether a grant of the one activity covers a need of the other:
/// the categories are equal, and what the grant names of type, place and set the need names too.
pub fn covers(grant: &Activity, need: &Activity) -> bool
    ensures value { result ≡ covers grant.now need.now }
    ensures allowed { IsTrue result ↔ Allows grant.now need.now }
{
    let set = allows(grant.set, need.set);
    grant.category == need.category
        && allows(grant.ty, need.ty)
        && allows(grant.place, need.place)
        && set
}
