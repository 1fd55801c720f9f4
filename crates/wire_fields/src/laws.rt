//! The law of the fields.
ghost use Rattle.std.specs.Prelude.{ℕ, ◌<◌, ◌^◌, List, Option};
ghost use Rattle.wire_fields.specs.Field.{IsField};
ghost use Rattle.wire_fields.specs.Spelling.{u8_bytes, u16_bytes, u32_bytes, u64_bytes, key_bytes, fence_bytes, value_bytes, before_bytes, vector_bytes, IsWithin, IsKey, IsFence, IsValue, IsBefore, IsVector};
ghost use Rattle.wire_fields.specs.Reading.{u8_at, u16_at, u32_at, u64_at, kind_at, key_at, fence_at, value_at, before_at, vector_at};

/// Each field has one spelling: what a reader takes from the front of bytes was spelled so, and what is
/// spelled so at the front it takes. The readers of this crate give exactly what these definitions do.
pub fn each_field_has_one_spelling()
    ensures byte { (total least most : ℕ) → IsField (u8_at total least most) u8_bytes (IsWithin least most) }
    ensures kind { (total least most : ℕ) → IsField (kind_at total least most) u8_bytes (IsWithin least most) }
    ensures two { (total least most : ℕ) → most < 2 ^ 16 → IsField (u16_at total least most) u16_bytes (IsWithin least most) }
    ensures four { (total least most : ℕ) → most < 2 ^ 32 → IsField (u32_at total least most) u32_bytes (IsWithin least most) }
    ensures eight { (total least most : ℕ) → most < 2 ^ 64 → IsField (u64_at total least most) u64_bytes (IsWithin least most) }
    ensures key { (total : ℕ) → IsField (key_at total) key_bytes IsKey }
    ensures fence { (total : ℕ) → IsField (fence_at total) fence_bytes IsFence }
    ensures value { (total : ℕ) → IsField (value_at total) value_bytes IsValue }
    ensures before { (total : ℕ) (now : Option (List ℕ)) → IsField (before_at total now) before_bytes (IsBefore now) }
    ensures vector { (total own : ℕ) → IsField (vector_at total own) vector_bytes (IsVector own) }
{}
