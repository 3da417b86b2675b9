//! Each call that takes memory, with a look at what a refusal leaves. Nothing here makes an allocation fail: a run that
//! makes the n-th one fail shows the other arm.
use super::writing::{Put, WRITTEN, write_value};
use cache_words::key::{CacheHashKey, CacheKey};
use cache_words::pack::{BorrowedKey, PackWriteFault};
use cache_words::text::Text;
use cache_words::variance::VarianceBuilder;
use std::alloc::{AllocError, Global};

// Whether a writer adds each text to the byte that was there, or is refused and leaves that byte alone.
fn add_or_keep(alloc: Global) -> bool {
    for &(value, text) in WRITTEN {
        let Ok(mut out) = Vec::from_slice(alloc, &[9]) else {
            return true;
        };
        let is_right = match write_value(alloc, &mut out, value) {
            Ok(()) => out.get(..1) == Some(&[9]) && out.get(1..) == Some(text),
            Err(fault) => fault == PackWriteFault::Memory && out.as_slice() == [9].as_slice(),
        };
        if !is_right {
            return false;
        }
    }
    true
}

#[test]
fn refused_writes_add_nothing(rt: HostRuntime) {
    assert!(rt; add_or_keep(rt.alloc()));
}

#[derive(Clone, Copy)]
enum Call {
    ToCompact,
    Clone,
    Primary,
    Variance,
    Combined,
}

const CALLS: &[Call] = &[
    Call::ToCompact,
    Call::Clone,
    Call::Primary,
    Call::Variance,
    Call::Combined,
];

fn full_key(alloc: Global) -> Result<CacheKey, AllocError> {
    let primary = Vec::from_slice(alloc, b"aa")?;
    let mut key = CacheKey::new(primary, String::from_str(alloc, "1")?);
    key.set_variance_key([7; 16]);
    Ok(key)
}

const PRIMARY: &str = "ac10f2aef117729f8dad056b3059eb7e";

// Whether what the call made is right.
fn is_right(alloc: Global, key: &CacheKey, call: Call) -> Result<bool, AllocError> {
    match call {
        Call::ToCompact => Ok(key.to_compact()?.variance == Some([7; 16])),
        Call::Clone => Ok(key.clone()?.variance_bin() == Some([7; 16])),
        Call::Primary => Ok(key.primary(alloc)?.as_str() == PRIMARY),
        Call::Variance => Ok(key.variance(alloc)?.is_some()),
        Call::Combined => Ok(key.combined(alloc)?.as_str().len() == 32),
    }
}

// Whether each call is right or refused, and leaves the variance.
fn calls_keep_the_key(alloc: Global) -> bool {
    for &call in CALLS {
        let is_right = match full_key(alloc) {
            Ok(key) => {
                is_right(alloc, &key, call) != Ok(false) && key.variance_bin() == Some([7; 16])
            }
            Err(AllocError) => true,
        };
        if !is_right {
            return false;
        }
    }
    true
}

const BORROWED: BorrowedKey<'static> = BorrowedKey {
    primary: [7; 16],
    variance: None,
    user_tag: "tag",
};

fn has_tag(alloc: Global, key: BorrowedKey<'_>) -> bool {
    match key.to_compact(alloc) {
        Ok(compact) => compact.user_tag() == "tag",
        Err(AllocError) => key.user_tag == "tag",
    }
}

fn text_is_copied_or_left(alloc: Global) -> bool {
    let Ok(string) = String::from_str(alloc, "tag") else {
        return true;
    };
    let text = Text::from_string(string);
    match text.clone() {
        Ok(copy) => copy == text,
        Err(AllocError) => text.as_str() == "tag",
    }
}

#[test]
fn refused_calls_keep_keys_tags_and_texts(rt: HostRuntime) {
    assert!(rt; calls_keep_the_key(rt.alloc()));
    assert!(rt; has_tag(rt.alloc(), BORROWED));
    assert!(rt; text_is_copied_or_left(rt.alloc()));
}

#[derive(Clone, Copy)]
enum Add {
    Borrowed,
    OwnedValue,
    OwnedBoth,
}

const WAYS: &[Add] = &[Add::Borrowed, Add::OwnedValue, Add::OwnedBoth];

fn add_value(
    alloc: Global,
    builder: &mut VarianceBuilder<'static>,
    way: Add,
) -> Result<(), AllocError> {
    match way {
        Add::Borrowed => builder.add_value("a", "1"),
        Add::OwnedValue => builder.add_owned_value("a", Vec::from_slice(alloc, b"1")?),
        Add::OwnedBoth => {
            builder.add_owned_name_value(String::from_str(alloc, "a")?, Vec::new(alloc))
        }
    }
}

// Whether builders have a variance just where the value was added.
fn are_added_or_not(alloc: Global) -> bool {
    for &way in WAYS {
        let mut builder = VarianceBuilder::new(alloc);
        let is_added = add_value(alloc, &mut builder, way).is_ok();
        if builder.has_variance() != is_added {
            return false;
        }
    }
    true
}

#[test]
fn refused_values_are_not_added(rt: HostRuntime) {
    assert!(rt; are_added_or_not(rt.alloc()));
}
