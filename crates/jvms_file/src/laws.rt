//! Laws about the definitions. Each is the contract of an empty function, so that the gate proves it.

ghost use Rattle.std.specs.Prelude.{◌≡◌, ℕ, ◌∷◌, [], ℤ, pos, negsuc, Option, Some, None, Ok};
ghost use Rattle.std.specs.Int.{w64};
ghost use Rattle.jvms_file.specs.declared.insn.Narrow.TheVariants as narrow;
ghost use Rattle.jvms_file.specs.Numbers.{wrap, long_wrap, IsCongruent, IsCongruentLong, IsInt, IsLong, quotient, remainder, shifted_left, shifted_right, shifted_right_unsigned, narrowed_int};
ghost use Rattle.jvms_file.specs.Numbers.{quotient_in, shifted_left_in, shifted_right_unsigned_in, int_of_long, comparison};
ghost use Rattle.jvms_file.specs.Code.{insns_of};
ghost use Rattle.jvms_file.specs.Examples.{gcd_code, gcd_insns};

/// Proves that the wrapped number is an int, is congruent to the number, and is the only such number.
pub fn wrap_is_the_congruent_int()
    ensures { (n : ℤ) → IsInt (wrap n) × IsCongruent n (wrap n)
        × ((m : ℤ) → IsInt m → IsCongruent n m → m ≡ wrap n) }
{}

/// Proves that the number wrapped to 64 bits is a long, is congruent to the number, and is the only such number.
pub fn wrap_is_the_congruent_long()
    ensures { (n : ℤ) → IsLong (long_wrap n) × IsCongruentLong n (long_wrap n)
        × ((m : ℤ) → IsLong m → IsCongruentLong n m → m ≡ long_wrap n) }
{}

/// Proves quotients and remainders at the border of the ints, and of a negative dividend.
pub fn quotients()
    ensures least { (quotient (negsuc 2147483647) (negsuc 0) ≡ Some (negsuc 2147483647))
        × (remainder (negsuc 2147483647) (negsuc 0) ≡ Some (pos 0)) }
    ensures negative { (quotient (negsuc 6) (pos 2) ≡ Some (negsuc 2))
        × (remainder (negsuc 6) (pos 2) ≡ Some (negsuc 0)) }
    ensures zero { quotient (pos 1) (pos 0) ≡ None }
{}

/// Proves shifts by more than 31, shifts of negative numbers, and narrowed numbers.
pub fn shifts_and_narrowed_numbers()
    ensures shifts { (shifted_left (pos 1) (pos 33) ≡ pos 2)
        × (shifted_right (negsuc 7) (pos 1) ≡ negsuc 3)
        × (shifted_right_unsigned (negsuc 0) (pos 28) ≡ pos 15) }
    ensures narrowed { (narrowed_int narrow.Byte (pos 200) ≡ negsuc 55)
        × (narrowed_int narrow.Char (negsuc 0) ≡ pos 65535)
        × (narrowed_int narrow.Short (pos 40000) ≡ negsuc 25535)
        × (narrowed_int narrow.Boolean (pos 3) ≡ pos 1) }
{}

/// Proves that the fifteen bytes of gcd are eleven instructions.
pub fn code_of_gcd()
    ensures { insns_of [] 49 gcd_code
        ≡ Ok (0 ∷ 1 ∷ 4 ∷ 5 ∷ 6 ∷ 7 ∷ 8 ∷ 9 ∷ 10 ∷ 13 ∷ 14 ∷ [], gcd_insns) }
{}

/// Proves quotients, shifts and conversions of longs at their borders, and the order of two.
pub fn results_of_longs()
    ensures least { (quotient_in w64 (negsuc 9223372036854775807) (negsuc 0)
        ≡ Some (negsuc 9223372036854775807))
        × (remainder (negsuc 9223372036854775807) (negsuc 0) ≡ Some (pos 0)) }
    ensures shifts { (shifted_left_in w64 (pos 1) (pos 65) ≡ pos 2)
        × (shifted_right_unsigned_in w64 (negsuc 0) (pos 60) ≡ pos 15) }
    ensures low_bits { int_of_long (pos 2147483648) ≡ negsuc 2147483647 }
    ensures order { comparison (negsuc 0) (pos 1) ≡ negsuc 0 }
{}
