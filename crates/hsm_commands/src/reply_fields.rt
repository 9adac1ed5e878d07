//! The reply fields of a message.
ghost use Rattle.std.specs.Prelude.{◌≡◌, ◌≤◌, ◌<◌, ◌+◌, ◌||◌, ◌^◌, ◌∷◌, [], ◌++◌, false, true, length, filter, map, is_some, IfSome};
ghost use Rattle.hsm_rows.specs.Table.{term_of};
ghost use Rattle.hsm_rows.specs.declared.row.Public.TheVariants.{Sealed, SealedUnder, SealedPin, BlockUnder};
ghost use Rattle.hsm_answers.specs.Keys.{is_absent};
ghost use Rattle.hsm_answers.specs.Pins.{pin_of};
ghost use Rattle.hsm_answers.specs.Answers.{is_present};
ghost use Rattle.hsm_answers.specs.Values.{secret_key, value_of, value, values, first_of, spaced};
ghost use Rattle.hsm_commands.specs.Demands.{key_drawn, pin_at_end, pin_demands, pin_there, public_demands, secret_demands, secret_parts, term_demands, term_room, terms_room};
ghost use Rattle.hsm_commands.specs.Plans.{IsAtEntry, written_fields};
ghost use Rattle.hsm_commands.specs.Request.{Meets, Leaves, row_rules, texts_of, message_of};
ghost use Rattle.hsm_commands.specs.Entries.{Has, HasEach, Stands, public_at, term_at, message_at, rules_at, texts_at, place_at};

use crate::components::joined_key;
use crate::fields::{format_of, lmk_of, number_at, text_of};
use crate::keys::{OpenedKeys, held_key};
use crate::needs::type_of;
use crate::reply_console::{live_of, put_cancelled, put_clear, put_grants, put_notes, put_numbers};
use crate::reply_pins::{BlockAsked, block_drawn, filled_to_twelve, put_sealed};
use crate::request::Request;
use crate::value::{Written, account_of, held_pin};
use hsm_answers::{draw_key, draw_pin, first_of, put_block, put_key, scheme_named};
use hsm_auth::Granted;
use hsm_lmk::{KeyCache, lmk_check, wrapping_pair};
use hsm_rows::{Code, PinSource, Public, Secret, Words};
use hsm_tdes::{Key, check_value};
use hsm_text::Reply;
use hsm_types::{Pin, scheme_parts};

// What a message's checks opened, read and made before its entry, each once.
#[derive(Clone, Copy)]
pub(crate) struct HeldParts {
    pub(crate) keys: OpenedKeys,
    pub(crate) pin: Option<Pin>,
    pub(crate) value: Written,
    pub(crate) chain: Written,
}

// A message at its entry: the cache that may keep its keys' schedules, what is held, what the ledger answered, the key that is drawn, and the PIN.
#[derive(Clone, Copy)]
pub(crate) struct Entry<'a, 'm> {
    pub(crate) request: &'a Request<'a, 'm>,
    pub(crate) cache: &'a KeyCache,
    pub(crate) held: &'a HeldParts,
    pub(crate) granted: &'a Granted,
    pub(crate) key: Option<Key>,
    pub(crate) pin: Option<Pin>,
}

// The PIN at the entry: a drawn one has its words from the place on.
#[tactic(auto, unfolding(hsm_answers::specs::Pins::pin_from))]
pub(crate) fn pin_at_entry(request: &Request<'_, '_>, held: &HeldParts, place: u64) -> Option<Pin>
    requires stands { Meets request.now held.now.keys (pin_demands (row_rules request.now).pin) }
    requires left { Leaves request.now held.now.pin }
    requires place { place < 2 ^ 63 }
    ensures pin { IfSome result (λ p. p ≡ pin_of (message_of request.now) place) }
    ensures there { is_some result ≡ pin_there (row_rules request.now).pin (pin_at_end false (row_rules request.now).checks) }
{
    match request.rules.pin {
        PinSource::DrawnPin { length, .. } => Some(draw_pin(
            request.module,
            place,
            number_at(request, length),
        )),
        PinSource::NoPin
        | PinSource::BlockPin { .. }
        | PinSource::LmkPin { .. }
        | PinSource::ClearPin { .. } => held.pin,
    }
}

// The key that is drawn at the entry, if one is.
#[tactic(auto, unfolding(hsm_answers::specs::Values::word_count))]
pub(crate) fn key_at_entry(request: &Request<'_, '_>, place: u64) -> Option<Key>
    requires { place < 2 ^ 63 }
    ensures { result ≡ key_drawn (message_of request.now) place }
{
    match request.rules.words {
        Words::TwoPerPart(_) => {
            let parts = scheme_parts(scheme_named(text_of(request, request.rules.made.scheme)));
            Some(draw_key(request.module, place, parts))
        }
        Words::NoWords | Words::AsLength(_) | Words::FillOf(_) => None,
    }
}

// The key that a secret is.
#[tactic(auto, using(hsm_answers::proofs::Lengths::drawn_length), unfolding(hsm_answers::specs::Values::secret_key))]
fn secret_key(entry: &Entry<'_, '_>, secret: Secret) -> Key
    requires stands { Has entry.now (secret_demands (rules_at entry.now) secret) }
    requires entry { Stands entry.now }
    ensures key { result ≡ secret_key (message_at entry.now) (place_at entry.now) secret }
    ensures parts { length result ≡ secret_parts (message_at entry.now) secret }
{
    match secret {
        Secret::Opened(k) => held_key(&entry.held.keys, k),
        Secret::OpenedUnder { field, .. } => held_key(&entry.held.keys, field),
        Secret::DrawnKey => match entry.key {
            Some(key) => key,
            // a row that writes a drawn key draws one
            None => unreachable!(),
        },
        Secret::Joined => joined_key(entry.request),
    }
}

// Appends the key under the LMK.
#[tactic(auto, unfolding(hsm_answers::specs::Values::value_of))]
fn put_sealed_key(entry: &Entry<'_, '_>, secret: Secret, reply: &mut Reply)
    requires stands { Has entry.now (public_demands (rules_at entry.now) (Sealed secret)) }
    requires entry { Stands entry.now }
    requires room { length reply.old ≤ 65000 }
    ensures text { reply.new ≡ reply.old ++ public_at entry.now (Sealed secret) }
    ensures grown { length reply.new ≤ length reply.old + 49 }
{
    let request = entry.request;
    let made = request.rules.made;
    let key = secret_key(entry, secret);
    let pair = wrapping_pair(lmk_of(request), type_of(request, made.ty));
    put_key(
        reply,
        &pair,
        scheme_named(text_of(request, made.scheme)),
        &key,
    );
}

// Whether field k or the other is absent.
fn is_one_absent(request: &Request<'_, '_>, k: u8, other: u8) -> bool
    ensures { result ≡ (is_absent (texts_of request.now) k || is_absent (texts_of request.now) other) }
{
    text_of(request, k).is_empty() || text_of(request, other).is_empty()
}

// Appends the key under the key of a field, where that is present.
#[tactic(auto, unfolding(hsm_answers::specs::Values::value_of))]
fn put_wrapped_key(entry: &Entry<'_, '_>, secret: Secret, kek: u8, reply: &mut Reply)
    requires stands { Has entry.now (public_demands (rules_at entry.now) (SealedUnder secret kek)) }
    requires entry { Stands entry.now }
    requires room { length reply.old ≤ 65000 }
    ensures text { reply.new ≡ reply.old ++ public_at entry.now (SealedUnder secret kek) }
    ensures grown { length reply.new ≤ length reply.old + 49 }
{
    let request = entry.request;
    let scheme = request.rules.made.wrap_scheme;
    if is_one_absent(request, kek, scheme) {
        return;
    }
    let key = secret_key(entry, secret);
    put_key(
        reply,
        &held_key(&entry.held.keys, kek),
        scheme_named(text_of(request, scheme)),
        &key,
    );
}

// The PIN at the entry.
fn entry_pin(entry: &Entry<'_, '_>) -> Pin
    requires there { is_some entry.now.pin ≡ true }
    requires entry { Stands entry.now }
    ensures { result ≡ pin_of (message_at entry.now) (place_at entry.now) }
{
    match entry.pin {
        Some(pin) => pin,
        // a row that writes its PIN gives or draws one
        None => unreachable!(),
    }
}

// Appends the PIN under the LMK.
#[tactic(auto, unfolding(hsm_answers::specs::Values::value_of))]
fn put_sealed_pin(entry: &Entry<'_, '_>, reply: &mut Reply)
    requires stands { Has entry.now (public_demands (rules_at entry.now) SealedPin) }
    requires entry { Stands entry.now }
    requires room { length reply.old ≤ 65000 }
    ensures text { reply.new ≡ reply.old ++ public_at entry.now SealedPin }
    ensures grown { length reply.new ≡ length reply.old + 16 }
{
    let request = entry.request;
    let account = account_of(request);
    put_sealed(lmk_of(request), &entry_pin(entry), &account, reply);
}

// Appends the block of the PIN in the format that a field names, under the key of a field.
#[tactic(auto, unfolding(hsm_answers::specs::Values::value_of))]
fn put_pin_block(entry: &Entry<'_, '_>, format: u8, key: u8, reply: &mut Reply)
    requires stands { Has entry.now (public_demands (rules_at entry.now) (BlockUnder format key)) }
    requires entry { Stands entry.now }
    requires room { length reply.old ≤ 65000 }
    ensures text { reply.new ≡ reply.old ++ public_at entry.now (BlockUnder format key) }
    ensures grown { length reply.new ≡ length reply.old + 16 }
{
    let request = entry.request;
    let account = account_of(request);
    let pin = held_pin(request, &entry.held.pin);
    let asked = BlockAsked {
        format: format_of(request, format),
        account,
        place: first_of(entry.granted),
    };
    let block = block_drawn(request.module, &asked, &pin);
    let key = held_key(&entry.held.keys, key);
    put_block(reply, entry.cache.encipher(&key, block));
}

// Appends a reply field.
#[tactic(auto, unfolding(hsm_answers::specs::Values::value_of, hsm_answers::specs::Values::shown_pin, hsm_answers::specs::Values::shown_key))]
fn put_term(entry: &Entry<'_, '_>, term: &Public, reply: &mut Reply)
    requires stands { Has entry.now (term_demands (rules_at entry.now) (term_of term.now)) }
    requires entry { Stands entry.now }
    requires room { length reply.old + term_room (texts_at entry.now) (term_of term.now) ≤ 65535 }
    ensures text { reply.new ≡ reply.old ++ term_at entry.now (term_of term.now) }
    ensures grown { length reply.new ≤ length reply.old + term_room (texts_at entry.now) (term_of term.now) }
{
    match term {
        Public::Given(k) => reply.put(text_of(entry.request, *k)),
        Public::Fixed(text) => reply.put(text.as_bytes()),
        Public::Sealed(secret) => put_sealed_key(entry, *secret, reply),
        Public::SealedUnder { secret, kek } => put_wrapped_key(entry, *secret, *kek, reply),
        Public::CheckValue(secret) => reply.put(&check_value(&secret_key(entry, *secret))),
        Public::SealedPin => put_sealed_pin(entry, reply),
        Public::BlockUnder { format, key } => put_pin_block(entry, *format, *key, reply),
        Public::PinLength => reply.put(&Code(entry_pin(entry).digits().len() as u8).digits()),
        Public::ShowPin => reply.put(&filled_to_twelve(&entry_pin(entry))),
        Public::Value => reply.put(entry.held.value.text()),
        Public::Chain => reply.put(entry.held.chain.text()),
        Public::LmkCheck => put_block(reply, lmk_check(lmk_of(entry.request))),
        Public::LiveGrants => reply.put(&Code(live_of(entry.granted).len() as u8).digits()),
        Public::Hosts => reply.put(&Code(entry.request.module.hosts).digits()),
        Public::Done => {}
        Public::Cancelled => put_cancelled(entry.granted, reply),
        Public::Grants => put_grants(entry.granted, reply),
        Public::Numbers => put_numbers(entry.granted, reply),
        Public::Notes => put_notes(entry.granted, reply),
        Public::ShowKey(secret) => put_clear(&secret_key(entry, *secret), reply),
    }
}

// Appends the reply fields one after another.
pub(crate) fn put_terms(entry: &Entry<'_, '_>, terms: &[Public], reply: &mut Reply)
    requires stands { HasEach entry.now (map (term_demands (rules_at entry.now)) (map term_of terms.now)) }
    requires entry { Stands entry.now }
    requires room { length reply.old + terms_room (texts_at entry.now) (map term_of terms.now) ≤ 65535 }
    ensures text { reply.new ≡ reply.old ++ written_fields false (values (message_at entry.now) entry.now.granted.now (map term_of terms.now)) }
    ensures grown { length reply.new ≤ length reply.old + terms_room (texts_at entry.now) (map term_of terms.now) }
{
    match terms {
        [] => {}
        [term, more @ ..] => {
            put_term(entry, term, reply);
            put_terms(entry, more, reply);
        }
    }
}

// Appends a reply field after one space, where it is there: it is written by itself before, which shows whether it is. Its
// room is taken in this call alone.
#[inline(never)]
fn put_after_space(entry: &Entry<'_, '_>, term: &Public, reply: &mut Reply)
    requires stands { Has entry.now (term_demands (rules_at entry.now) (term_of term.now)) }
    requires entry { Stands entry.now }
    requires room { length reply.old + 1 + term_room (texts_at entry.now) (term_of term.now) ≤ 65535 }
    ensures text { reply.new ≡ reply.old ++ spaced (filter is_present (term_at entry.now (term_of term.now) ∷ [])) }
    ensures grown { length reply.new ≤ length reply.old + 1 + term_room (texts_at entry.now) (term_of term.now) }
{
    let mut field = Reply::new();
    put_term(entry, term, &mut field);
    if !field.bytes().is_empty() {
        reply.put(b" ");
        reply.put(field.bytes());
    }
}

// Appends the reply fields that are there, each after one space.
pub(crate) fn put_spaced(entry: &Entry<'_, '_>, terms: &[Public], reply: &mut Reply)
    requires stands { HasEach entry.now (map (term_demands (rules_at entry.now)) (map term_of terms.now)) }
    requires entry { Stands entry.now }
    requires room { length reply.old + terms_room (texts_at entry.now) (map term_of terms.now) ≤ 65535 }
    ensures text { reply.new ≡ reply.old ++ written_fields true (values (message_at entry.now) entry.now.granted.now (map term_of terms.now)) }
    ensures grown { length reply.new ≤ length reply.old + terms_room (texts_at entry.now) (map term_of terms.now) }
{
    match terms {
        [] => {}
        [term, more @ ..] => {
            put_after_space(entry, term, reply);
            put_spaced(entry, more, reply);
        }
    }
}
