//! A position in a borrowed slice.
ghost use Rattle.std.specs.Prelude.{◌≡◌, ◌≢◌, ◌≤◌, [], length, IfOk, IfSome, is_ok, is_some};
ghost use Rattle.hsm_text.specs.Place.{rest_of, past, front};
ghost use Rattle.hsm_text.specs.Sizes.{take_size, digits_size, hex_size, word_size, key_size};
ghost use Rattle.hsm_text.specs.KeyTexts.{scheme_of, digits_of};

use crate::keys::{KeyForm, KeyText};
use crate::sizes;
use std::marker::Model;

/// No such text stands at the position.
#[derive(Clone, Copy, Debug, PartialEq, Eq)]
pub struct Bad;

/// A position in a borrowed slice. Contracts see the slice and how many of its bytes are passed.
///
/// Each call that takes a text gives it as a slice of the source and moves past it, or answers `Bad` exactly where
/// no such text stands at the position, and the position is then as before.
#[derive(Drop)]
pub struct Scan<'a> {
    bytes: &'a [u8],
    at: usize,
}

impl<'a> Model for Scan<'a> {
    ghost use Rattle.hsm_text.specs.Place.{Place, place_of, IsWithin};

    ghost Value = { Place };

    ghost view = { place_of };

    ghost invariant = { IsWithin };
}

impl<'a> Scan<'a> {
    /// The position before the first byte.
    pub fn new(bytes: &'a [u8]) -> Scan<'a>
        ensures { result ≡ record { source = bytes.now; at = 0 } }
    {
        Scan { bytes, at: 0 }
    }

    /// How many bytes are passed.
    pub fn at(&self) -> usize
        ensures at { result ≡ self.now.at }
        ensures within { result ≤ length self.now.source }
    {
        self.at
    }

    /// The bytes that aren't passed.
    pub fn rest(&self) -> &'a [u8]
        ensures { result.now ≡ rest_of self.now }
    {
        &self.bytes[self.at..]
    }

    // Moves past a text of this size.
    fn advance(&mut self, size: Option<usize>) -> Result<&'a [u8], Bad>
        requires { IfSome size (λ n. n ≤ length (rest_of self.old)) }
        ensures moves { self.new ≡ past size self.old }
        ensures answer { is_ok result ≡ is_some size }
        ensures text { IfOk result (λ t. t.now ≡ front size (rest_of self.old)) }
    {
        match size {
            Some(n) => {
                let rest = &self.bytes[self.at..];
                self.at += n;
                Ok(&rest[..n])
            }
            None => Err(Bad),
        }
    }

    /// Takes n bytes.
    pub fn take(&mut self, n: usize) -> Result<&'a [u8], Bad>
        ensures moves { self.new ≡ past (take_size n (rest_of self.old)) self.old }
        ensures answer { is_ok result ≡ is_some (take_size n (rest_of self.old)) }
        ensures text { IfOk result (λ t. t.now ≡ front (take_size n (rest_of self.old)) (rest_of self.old)) }
    {
        let size = sizes::take(self.rest(), n);
        self.advance(size)
    }

    /// Takes n decimal digits.
    pub fn digits(&mut self, n: usize) -> Result<&'a [u8], Bad>
        ensures moves { self.new ≡ past (digits_size n (rest_of self.old)) self.old }
        ensures answer { is_ok result ≡ is_some (digits_size n (rest_of self.old)) }
        ensures text { IfOk result (λ t. t.now ≡ front (digits_size n (rest_of self.old)) (rest_of self.old)) }
    {
        let size = sizes::digits(self.rest(), n);
        self.advance(size)
    }

    /// Takes n hexadecimal digits, of either case.
    pub fn hex(&mut self, n: usize) -> Result<&'a [u8], Bad>
        ensures moves { self.new ≡ past (hex_size n (rest_of self.old)) self.old }
        ensures answer { is_ok result ≡ is_some (hex_size n (rest_of self.old)) }
        ensures text { IfOk result (λ t. t.now ≡ front (hex_size n (rest_of self.old)) (rest_of self.old)) }
    {
        let size = sizes::hex(self.rest(), n);
        self.advance(size)
    }

    /// Takes just this text.
    pub fn word(&mut self, text: &[u8]) -> Result<(), Bad>
        requires { text.now ≢ [] }
        ensures moves { self.new ≡ past (word_size text.now (rest_of self.old)) self.old }
        ensures answer { is_ok result ≡ is_some (word_size text.now (rest_of self.old)) }
    {
        let size = sizes::word(self.rest(), text);
        match self.advance(size) {
            Ok(_) => Ok(()),
            Err(bad) => Err(bad),
        }
    }

    /// Takes a key text of the form, and gives it in its parts.
    pub fn key_text(&mut self, form: KeyForm) -> Result<KeyText<'a>, Bad>
        ensures moves { self.new ≡ past (key_size form (rest_of self.old)) self.old }
        ensures answer { is_ok result ≡ is_some (key_size form (rest_of self.old)) }
        ensures scheme { IfOk result (λ k. k.scheme ≡ scheme_of (front (key_size form (rest_of self.old)) (rest_of self.old))) }
        ensures digits { IfOk result (λ k. k.digits.now ≡ digits_of (front (key_size form (rest_of self.old)) (rest_of self.old))) }
    {
        let size = sizes::key(self.rest(), form);
        match self.advance(size) {
            Ok(text) => Ok(KeyText::of(text)),
            Err(bad) => Err(bad),
        }
    }
}
