// Exact keys of words: each has a number, in the order in which they first came.
ghost use Rattle.std.specs.Prelude.{
  ◌≡◌,
  ◌+◌,
  ◌*◌,
  ◌<◌,
  ◌≤◌,
  [],
  ℕ,
  IfNone,
  IfOk,
  IfSome,
  OnErr,
  OnOk,
  length,
  slice_index,
  slice_index_or,
};
ghost use Rattle.opening_tree.specs.Keys.{
  AreLinked,
  IsNoKey,
  bucket_in,
  hash_of,
  key_at,
  mixed,
  number_of,
  with_key,
};

use kb_geometry::NoMemory;
use std::alloc::Global;
use std::marker::Model;

// The most keys: their numbers, and one more, are kept as `u32`.
const MOST: usize = 4_294_967_295;

// How many buckets there are at first.
const FIRST_BUCKETS: usize = 64;

// Different keys of as many words each. Contracts see the list of them.
//
// They stand one behind the other in one list. Each bucket of hashes has a link to its last key, and
// each key one to the key before it in its bucket; a link is one more than a number, or 0 for none.
#[derive(Debug, Drop)]
pub(crate) struct Keys {
    width: usize,
    words: Vec<u64>,
    nexts: Vec<u32>,
    heads: Vec<u32>,
}

impl Model for Keys {
    ghost use Rattle.std.specs.Prelude.{length};
    ghost use Rattle.opening_tree.specs.Keys.{IsKeyTable, KeyList, keys_in};

    ghost Value = { KeyList };

    ghost view = { λ k. record {
      width = k.width;
      keys = keys_in k.width (length k.nexts.items) k.words.items;
    } };

    ghost invariant = { λ k. IsKeyTable k.width k.words.items k.nexts.items k.heads.items };
}

impl Keys {
    // No key yet, of so many words each. The only error is `NoMemory`.
    pub(crate) fn new(alloc: Global, width: usize) -> Result<Keys, NoMemory>
        ensures width { IfOk result (λ keys. keys.width ≡ width) }
        ensures none { IfOk result (λ keys. keys.keys ≡ []) }
    {
        let heads = vec![in alloc; 0; FIRST_BUCKETS]?;
        Ok(Keys {
            width,
            words: Vec::new(alloc),
            nexts: Vec::new(alloc),
            heads,
        })
    }

    // The key with this number.
    pub(crate) fn key(&self, at: usize) -> &[u64]
        requires { at < length self.now.keys }
        ensures { result.now ≡ slice_index_or self.now.keys at [] }
    {
        key_at(self.width, self.words.as_slice(), at)
    }

    // The number of a key, which is added if it isn't there. The only error is `NoMemory`, also where
    // there are 4,294,967,295 keys.
    pub(crate) fn find_or_add(&mut self, alloc: Global, key: &[u64]) -> Result<usize, NoMemory>
        requires { length key.now ≡ self.old.width }
        ensures width { self.new.width ≡ self.old.width }
        ensures number { IfOk result (λ at. at ≡ number_of key.now self.old.keys) }
        ensures keys { OnOk result (self.new.keys ≡ with_key self.old.keys key.now) }
        ensures unchanged { OnErr result (self.new ≡ self.old) }
    {
        let hash = hash_of(key);
        if let Some(at) = self.find(hash, key) {
            return Ok(at);
        }
        self.make_room(alloc)?;
        self.push(hash, key)
    }

    // The number of a key with this hash, if it is there.
    fn find(&self, hash: u64, key: &[u64]) -> Option<usize>
        requires width { length key.now ≡ self.now.width }
        requires hash { hash ≡ hash_of key.now }
        ensures number { IfSome result (λ at. at ≡ number_of key.now self.now.keys) }
        ensures there { IfSome result (λ at. self.now.keys ≡ with_key self.now.keys key.now) }
        ensures none { IfNone result (IsNoKey self.now.keys key.now) }
    {
        let mut next = self.heads[bucket_in(hash, self.heads.len())];
        while next > 0 {
            let at = next as usize - 1;
            if key_at(self.width, self.words.as_slice(), at) == key {
                return Some(at);
            }
            next = self.nexts[at];
        }
        None
    }

    // Doubles the buckets where there are as many keys. The only error is `NoMemory`.
    fn make_room(&mut self, alloc: Global) -> Result<(), NoMemory>
        ensures { self.new ≡ self.old }
    {
        if self.nexts.len() < self.heads.len() {
            return Ok(());
        }
        let mut heads = vec![in alloc; 0; 2 * self.heads.len()]?;
        link_all(
            self.width,
            self.words.as_slice(),
            self.nexts.as_mut_slice(),
            heads.as_mut_slice(),
        );
        self.heads = heads;
        Ok(())
    }

    // Adds a key with this hash, which isn't there, and gives its number. The only error is
    // `NoMemory`.
    fn push(&mut self, hash: u64, key: &[u64]) -> Result<usize, NoMemory>
        requires width { length key.now ≡ self.old.width }
        requires hash { hash ≡ hash_of key.now }
        requires none { IsNoKey self.old.keys key.now }
        ensures width { self.new.width ≡ self.old.width }
        ensures number { IfOk result (λ at. at ≡ number_of key.now self.old.keys) }
        ensures keys { OnOk result (self.new.keys ≡ with_key self.old.keys key.now) }
        ensures unchanged { OnErr result (self.new ≡ self.old) }
    {
        let at = self.nexts.len();
        if at >= MOST {
            return Err(NoMemory);
        }
        self.nexts.reserve(1)?;
        self.words.extend_from_slice(key)?;
        let bucket = bucket_in(hash, self.heads.len());
        self.nexts.push_reserved(self.heads[bucket]);
        self.heads[bucket] = at as u32 + 1;
        Ok(at)
    }
}

// The key with this number, of so many words.
fn key_at(width: usize, words: &[u64], at: usize) -> &[u64]
    requires { width * at + width ≤ length words.now }
    ensures { result.now ≡ key_at width at words.now }
{
    let start = width * at;
    &words[start..start + width]
}

// Links all keys, where no bucket has one.
fn link_all(width: usize, words: &[u64], nexts: &mut [u32], heads: &mut [u32])
    requires counted { length words.now ≡ width * length nexts.old }
    requires few { length nexts.old ≤ 4294967295 }
    requires some { 0 < length heads.old }
    requires none { (b : ℕ) → b < length heads.old → slice_index heads.old b ≡ 0 }
    ensures counted { length nexts.new ≡ length nexts.old }
    ensures some { length heads.new ≡ length heads.old }
    ensures linked { AreLinked width words.now (length heads.old) nexts.new heads.new
        (length nexts.old) }
{
    for at in 0..nexts.len() {
        let bucket = bucket_in(hash_of(key_at(width, words, at)), heads.len());
        nexts[at] = heads[bucket];
        heads[bucket] = at as u32 + 1;
    }
}

// The hash of a key.
#[tactic(auto, unfolding(crate::specs::Keys::hash_of))]
fn hash_of(words: &[u64]) -> u64
    ensures { result ≡ hash_of words.now }
{
    let mut hash = 0;
    for word in words {
        hash = mixed(hash, *word);
    }
    hash
}

// One word more in a hash.
#[tactic(auto, unfolding(crate::specs::Keys::mixed))]
fn mixed(hash: u64, word: u64) -> u64
    ensures { result ≡ mixed hash word }
{
    (hash ^ word)
        .wrapping_mul(11400714819323198485)
        .rotate_left(29)
}

// The bucket of a hash, of so many.
fn bucket_in(hash: u64, buckets: usize) -> usize
    requires { 0 < buckets }
    ensures value { result ≡ bucket_in hash buckets }
    ensures below { result < buckets }
{
    (hash >> 32) as usize & (buckets - 1)
}
