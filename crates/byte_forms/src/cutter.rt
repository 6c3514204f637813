// Bytes that are cut from the front.
ghost use Rattle.std.specs.Prelude.{◌≡◌, ◌<◌, ◌≤◌, ◌+◌, ◌-◌, ◌++◌, [], length, IfOk, IfErr, OnErr, MatchResult};
ghost use Rattle.byte_forms.specs.Numbers.{number};
ghost use Rattle.byte_forms.specs.Fields.{word, number_in};
ghost use Rattle.byte_forms.specs.Cuts.{Takes, FaultsAt};

use crate::faults::{CutFault, Misfit};
use crate::numbers::{read_number, u8_of, u16_of, u32_of, u64_of};
use std::marker::Model;

/// An input, and how far it is read. Numbers are big-endian. Slices that it lends are parts of the input. A refusal
/// changes nothing, and each call takes constant time.
#[derive(Debug, Drop)]
pub struct Cutter<'a> {
    left: &'a [u8],
    total: u64,
}

impl<'a> Model for Cutter<'a> {
    ghost use Rattle.std.specs.Prelude.{◌≤◌, length};
    ghost use Rattle.byte_forms.specs.Cuts.{Cut};

    ghost Value = { Cut };

    ghost view = { λ c. record { left = c.left.now; total = c.total } };

    ghost invariant = { λ c. length c.left.now ≤ c.total };
}

impl<'a> Cutter<'a> {
    /// The whole input is left.
    pub fn new(bytes: &'a [u8]) -> Cutter<'a>
        ensures left { result.left ≡ bytes.now }
        ensures total { result.total ≡ length bytes.now }
    {
        Cutter {
            left: bytes,
            total: bytes.len() as u64,
        }
    }

    /// A cutter of its own at the same place.
    pub fn fork(&self) -> Cutter<'a>
        ensures { result ≡ self.now }
    {
        Cutter {
            left: self.left,
            total: self.total,
        }
    }

    /// The bytes that are left.
    pub fn left(&self) -> &'a [u8]
        ensures { result.now ≡ self.now.left }
    {
        self.left
    }

    /// How many bytes were read.
    pub fn at(&self) -> u64
        ensures { result + length self.now.left ≡ self.now.total }
    {
        self.total - self.left.len() as u64
    }

    /// The place from which on so many bytes of the input are left.
    pub fn place(&self, left: usize) -> u64
        requires { left ≤ length self.now.left }
        ensures { result + left ≡ self.now.total }
    {
        self.total - left as u64
    }

    /// The number of the next byte, refused as `Short` where fewer are left.
    pub fn take_u8(&mut self) -> Result<u8, CutFault>
        ensures ok { IfOk result (λ n. self.old.left ≡ number 1 n ++ self.new.left) }
        ensures total { self.new.total ≡ self.old.total }
        ensures short { IfErr result (λ e. (e ≡ CutFault.Short self.old.total) × (length self.old.left < 1)) }
        ensures err { OnErr result (self.new ≡ self.old) }
    {
        let front = self.take_slice(1)?;
        Ok(u8_of(front))
    }

    /// The number of the next two bytes, refused as `Short` where fewer are left.
    pub fn take_u16(&mut self) -> Result<u16, CutFault>
        ensures ok { IfOk result (λ n. self.old.left ≡ number 2 n ++ self.new.left) }
        ensures total { self.new.total ≡ self.old.total }
        ensures short { IfErr result (λ e. (e ≡ CutFault.Short self.old.total) × (length self.old.left < 2)) }
        ensures err { OnErr result (self.new ≡ self.old) }
    {
        let front = self.take_slice(2)?;
        Ok(u16_of(front))
    }

    /// The number of the next four bytes, refused as `Short` where fewer are left.
    pub fn take_u32(&mut self) -> Result<u32, CutFault>
        ensures ok { IfOk result (λ n. self.old.left ≡ number 4 n ++ self.new.left) }
        ensures total { self.new.total ≡ self.old.total }
        ensures short { IfErr result (λ e. (e ≡ CutFault.Short self.old.total) × (length self.old.left < 4)) }
        ensures err { OnErr result (self.new ≡ self.old) }
    {
        let front = self.take_slice(4)?;
        Ok(u32_of(front))
    }

    /// The number of the next eight bytes, refused as `Short` where fewer are left.
    pub fn take_u64(&mut self) -> Result<u64, CutFault>
        ensures ok { IfOk result (λ n. self.old.left ≡ number 8 n ++ self.new.left) }
        ensures total { self.new.total ≡ self.old.total }
        ensures short { IfErr result (λ e. (e ≡ CutFault.Short self.old.total) × (length self.old.left < 8)) }
        ensures err { OnErr result (self.new ≡ self.old) }
    {
        let front = self.take_slice(8)?;
        Ok(u64_of(front))
    }

    /// The number of the next byte, from `low` to `high`, refused at the first byte with which no such number begins.
    pub fn take_u8_in(&mut self, low: u8, high: u8) -> Result<u8, Misfit>
        ensures ok { IfOk result (λ n. Takes (number_in 1 low high) self.old n self.new) }
        ensures range { IfOk result (λ n. (low ≤ n) × (n ≤ high)) }
        ensures misfit { IfErr result (λ e. FaultsAt (number_in 1 low high) self.old e.at) }
        ensures err { OnErr result (self.new ≡ self.old) }
    {
        match read_number(self.left, 1, u64::from(low), u64::from(high)) {
            Ok(n) => {
                self.left = &self.left[1..];
                Ok(n as u8)
            }
            Err(i) => Err(Misfit {
                at: self.at() + i as u64,
            }),
        }
    }

    /// The number of the next two bytes, from `low` to `high`, refused at the first byte with which no such number begins.
    pub fn take_u16_in(&mut self, low: u16, high: u16) -> Result<u16, Misfit>
        ensures ok { IfOk result (λ n. Takes (number_in 2 low high) self.old n self.new) }
        ensures range { IfOk result (λ n. (low ≤ n) × (n ≤ high)) }
        ensures misfit { IfErr result (λ e. FaultsAt (number_in 2 low high) self.old e.at) }
        ensures err { OnErr result (self.new ≡ self.old) }
    {
        match read_number(self.left, 2, u64::from(low), u64::from(high)) {
            Ok(n) => {
                self.left = &self.left[2..];
                Ok(n as u16)
            }
            Err(i) => Err(Misfit {
                at: self.at() + i as u64,
            }),
        }
    }

    /// The number of the next four bytes, from `low` to `high`, refused at the first byte with which no such number begins.
    pub fn take_u32_in(&mut self, low: u32, high: u32) -> Result<u32, Misfit>
        ensures ok { IfOk result (λ n. Takes (number_in 4 low high) self.old n self.new) }
        ensures range { IfOk result (λ n. (low ≤ n) × (n ≤ high)) }
        ensures misfit { IfErr result (λ e. FaultsAt (number_in 4 low high) self.old e.at) }
        ensures err { OnErr result (self.new ≡ self.old) }
    {
        match read_number(self.left, 4, u64::from(low), u64::from(high)) {
            Ok(n) => {
                self.left = &self.left[4..];
                Ok(n as u32)
            }
            Err(i) => Err(Misfit {
                at: self.at() + i as u64,
            }),
        }
    }

    /// The number of the next eight bytes, from `low` to `high`, refused at the first byte with which no such number begins.
    pub fn take_u64_in(&mut self, low: u64, high: u64) -> Result<u64, Misfit>
        ensures ok { IfOk result (λ n. Takes (number_in 8 low high) self.old n self.new) }
        ensures range { IfOk result (λ n. (low ≤ n) × (n ≤ high)) }
        ensures misfit { IfErr result (λ e. FaultsAt (number_in 8 low high) self.old e.at) }
        ensures err { OnErr result (self.new ≡ self.old) }
    {
        match read_number(self.left, 8, low, high) {
            Ok(n) => {
                self.left = &self.left[8..];
                Ok(n)
            }
            Err(i) => Err(Misfit {
                at: self.at() + i as u64,
            }),
        }
    }

    /// The next `n` bytes, refused as `Short` where fewer are left.
    pub fn take_slice(&mut self, n: u32) -> Result<&'a [u8], CutFault>
        ensures ok { IfOk result (λ slice. Takes (word n) self.old slice.now self.new) }
        ensures len { IfOk result (λ slice. length slice.now ≡ n) }
        ensures short { IfErr result (λ e. (e ≡ CutFault.Short self.old.total) × (length self.old.left < n)) }
        ensures misfit { OnErr result (FaultsAt (word n) self.old self.old.total) }
        ensures err { OnErr result (self.new ≡ self.old) }
    {
        let n = n as usize;
        if self.left.len() < n {
            return Err(CutFault::Short { at: self.total });
        }
        let (front, rest) = self.left.split_at(n);
        self.left = rest;
        Ok(front)
    }

    /// Refused as `TooLong` where a byte is left.
    pub fn end(&self) -> Result<(), CutFault>
        ensures ends { MatchResult result
            (λ _. self.now.left ≡ [])
            (λ e. (e ≡ CutFault.TooLong (self.now.total - length self.now.left)) × (0 < length self.now.left)) }
        ensures within { length self.now.left ≤ self.now.total }
    {
        if self.left.is_empty() {
            Ok(())
        } else {
            Err(CutFault::TooLong { at: self.at() })
        }
    }
}
