//! The three list types, which contracts see as lists.

ghost use Rattle.std.specs.Prelude.{◌≡◌, ◌<◌, [], ◌∷◌, ◌++◌, length, slice_get, slice_index, IfOk, OnOk, OnErr};

use std::alloc::{AllocError, Global};
use std::marker::Model;

/// A list of numbers.
#[derive(Debug, Drop)]
pub struct Nums {
    numbers: Vec<u64>,
}

impl Model for Nums {
    ghost use Rattle.std.specs.Prelude.{ℕ, List};

    ghost Value = { List ℕ };

    ghost view = { λ list. list.numbers.items };
}

impl Nums {
    /// The empty list; it takes no memory.
    pub fn new(alloc: Global) -> Nums
        ensures { result ≡ [] }
    {
        Nums {
            numbers: Vec::new(alloc),
        }
    }

    /// The numbers of a `Vec`, without a copy.
    pub fn from_vec(numbers: Vec<u64>) -> Nums
        ensures { result ≡ numbers.items }
    {
        Nums { numbers }
    }

    /// Appends a number; without memory the list stays as it was.
    pub fn push(&mut self, item: u64) -> Result<(), AllocError>
        ensures ok { OnOk result (self.new ≡ self.old ++ item ∷ []) }
        ensures err { OnErr result (self.new ≡ self.old) }
    {
        self.numbers.push(item)?;
        Ok(())
    }

    pub fn len(&self) -> usize
        ensures { result ≡ length self.now }
    {
        self.numbers.len()
    }

    pub fn get(&self, n: usize) -> u64
        requires { n < length self.now }
        ensures { result ≡ slice_index self.now n }
    {
        self.numbers[n]
    }

    pub fn as_slice(&self) -> &[u64]
        ensures { result.now ≡ self.now }
    {
        self.numbers.as_slice()
    }

    /// The numbers as a `Vec`, without a copy.
    pub fn into_vec(self) -> Vec<u64>
        ensures { result.items ≡ self }
    {
        let Nums { numbers } = self;
        numbers
    }
}

/// A list of bytes: a name or a text.
#[derive(Debug, Drop)]
pub struct Name {
    bytes: Vec<u8>,
}

impl Model for Name {
    ghost use Rattle.std.specs.Prelude.{ℕ, List};

    ghost Value = { List ℕ };

    ghost view = { λ list. list.bytes.items };
}

impl Name {
    /// The empty list; it takes no memory.
    pub fn new(alloc: Global) -> Name
        ensures { result ≡ [] }
    {
        Name {
            bytes: Vec::new(alloc),
        }
    }

    /// The bytes of a `Vec`, without a copy.
    pub fn from_vec(bytes: Vec<u8>) -> Name
        ensures { result ≡ bytes.items }
    {
        Name { bytes }
    }

    /// A copy of some bytes.
    pub fn from_slice(alloc: Global, bytes: &[u8]) -> Result<Name, AllocError>
        ensures { IfOk result (λ name. name ≡ bytes.now) }
    {
        Ok(Name {
            bytes: Vec::from_slice(alloc, bytes)?,
        })
    }

    /// Appends a byte; without memory the list stays as it was.
    pub fn push(&mut self, item: u8) -> Result<(), AllocError>
        ensures ok { OnOk result (self.new ≡ self.old ++ item ∷ []) }
        ensures err { OnErr result (self.new ≡ self.old) }
    {
        self.bytes.push(item)?;
        Ok(())
    }

    /// Appends some bytes; without memory the list stays as it was.
    pub fn append(&mut self, items: &[u8]) -> Result<(), AllocError>
        ensures ok { OnOk result (self.new ≡ self.old ++ items.now) }
        ensures err { OnErr result (self.new ≡ self.old) }
    {
        self.bytes.extend_from_slice(items)?;
        Ok(())
    }

    pub fn len(&self) -> usize
        ensures { result ≡ length self.now }
    {
        self.bytes.len()
    }

    pub fn get(&self, n: usize) -> u8
        requires { n < length self.now }
        ensures { result ≡ slice_index self.now n }
    {
        self.bytes[n]
    }

    pub fn as_bytes(&self) -> &[u8]
        ensures { result.now ≡ self.now }
    {
        self.bytes.as_slice()
    }

    /// The bytes as a `Vec`, without a copy.
    pub fn into_vec(self) -> Vec<u8>
        ensures { result.items ≡ self }
    {
        let Name { bytes } = self;
        bytes
    }
}

/// A list of anything.
#[derive(Debug, Drop)]
pub struct Items<T> {
    items: Vec<T>,
}

impl<T> Model for Items<T> {
    ghost use Rattle.std.specs.Prelude.{List};
    ghost use Rattle.std.specs.Coded.{coded_list};

    ghost Value = { List T };

    ghost coded = { coded_list T.code };

    ghost view = { λ list. list.items.items };
}

impl<T> Items<T> {
    /// The empty list; it takes no memory.
    pub fn new(alloc: Global) -> Items<T>
        ensures { result ≡ [] }
    {
        Items {
            items: Vec::new(alloc),
        }
    }

    /// The items of a `Vec`, without a copy.
    pub fn from_vec(items: Vec<T>) -> Items<T>
        ensures { result ≡ items.items }
    {
        Items { items }
    }

    pub fn len(&self) -> usize
        ensures { result ≡ length self.now }
    {
        self.items.len()
    }

    pub fn get(&self, n: usize) -> &T
        requires { n < length self.now }
        ensures { slice_get self.now n ≡ Some result.now }
    {
        &self.items[n]
    }

    pub fn as_slice(&self) -> &[T]
        ensures { result.now ≡ self.now }
    {
        self.items.as_slice()
    }

    /// The items as a `Vec`, without a copy.
    pub fn into_vec(self) -> Vec<T>
        ensures { result.items ≡ self }
    {
        let Items { items } = self;
        items
    }
}

impl<T: Drop> Items<T> {
    /// Appends an item; without memory the list stays as it was.
    pub fn push(&mut self, item: T) -> Result<(), AllocError>
        ensures ok { OnOk result (self.new ≡ self.old ++ item ∷ []) }
        ensures err { OnErr result (self.new ≡ self.old) }
    {
        self.items.push(item)?;
        Ok(())
    }
}
