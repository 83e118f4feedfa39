//! The rows of the microcode, in the order of their addresses. All of the ROM is written from this list.

/// Gives a macro the rows. A row has its name and its words; a branch names the row that it goes to. A row without
/// `nxt` goes on to the row behind it. Places 0 to 15 are scratch words, written in a row before they are read there.
/// A read is `Stmra`, `Wait`, `Ldmrd` and a write `Stmwd`, `Wait`, with nothing between.
#[macro_export]
macro_rules! microcode {
    ($reader:ident) => {
        $reader! {
            // Numbers.

            // nop, and every opcode that has no row
            NOP = [Nop nxt];

            // iconst_m1, iconst_0 and aconst_null, iconst_1 to iconst_5
            ICONST_M1 = [Ldi ONES nxt];
            ICONST_0 = [Ldi 0 nxt];
            ICONST_1 = [Ldi 1 nxt];
            ICONST_2 = [Ldi 2 nxt];
            ICONST_3 = [Ldi 3 nxt];
            ICONST_4 = [Ldi 4 nxt];
            ICONST_5 = [Ldi 5 nxt];

            // lconst_0, lconst_1
            LCONST_0 = [Ldi 0] [Ldi 0 nxt];
            LCONST_1 = [Ldi 0] [Ldi 1 nxt];

            // bipush, sipush
            BIPUSH = [Nop opd] [Ldo8 nxt];
            SIPUSH = [Nop opd] [Nop opd] [Ldo16 nxt];

            // ldc, ldc_w: an entry of the pool lies at the pool's place and twice its index; its first word is the value
            LDC = [Nop opd] [Ldo] [Dup] [Add] [Ldm POOL] [Add] [Stmra] [Wait] [Ldmrd nxt];
            LDC_W = [Nop opd] [Nop opd] [Ldo] [Dup] [Add] [Ldm POOL] [Add] [Stmra] [Wait] [Ldmrd nxt];

            // ldc2_w: both words of the entry; 0 is the place of the entry
            LDC2_W = [Nop opd] [Nop opd] [Ldo] [Dup] [Add] [Ldm POOL] [Add] [Stm 0] [Ldm 0] [Stmra] [Wait]
                [Ldmrd] [Ldm 0] [Ldi 1] [Add] [Stmra] [Wait] [Ldmrd nxt];

            // Locals.

            // iload_0 to iload_3, aload_0 to aload_3
            ILOAD_0 = [Ld0 nxt];
            ILOAD_1 = [Ld1 nxt];
            ILOAD_2 = [Ld2 nxt];
            ILOAD_3 = [Ld3 nxt];

            // istore_0 to istore_3, astore_0 to astore_3
            ISTORE_0 = [St0 nxt];
            ISTORE_1 = [St1 nxt];
            ISTORE_2 = [St2 nxt];
            ISTORE_3 = [St3 nxt];

            // iload and aload, istore and astore
            ILOAD = [Nop opd] [Ldl nxt];
            ISTORE = [Nop opd] [Stl nxt];

            // lload_0 to lload_3, lstore_0 to lstore_3
            LLOAD_0 = [Ld0] [Ld1 nxt];
            LLOAD_1 = [Ld1] [Ld2 nxt];
            LLOAD_2 = [Ld2] [Ld3 nxt];
            LLOAD_3 = [Ld3] [Ldvp] [Ldi 4] [Add] [Star] [Ldmi nxt];
            LSTORE_0 = [St1] [St0 nxt];
            LSTORE_1 = [St2] [St1 nxt];
            LSTORE_2 = [St3] [St2 nxt];
            LSTORE_3 = [Ldvp] [Ldi 4] [Add] [Star] [Stmi] [St3 nxt];

            // lload, lstore: AR is the place of the low word
            LLOAD = [Ldvp opd] [Ldo] [Add] [Ldi 1] [Add] [Star] [Ldl] [Ldmi nxt];
            LSTORE = [Ldvp opd] [Ldo] [Add] [Ldi 1] [Add] [Star] [Stmi] [Stl nxt];

            // iinc: AR is the place of the local before the number is shifted in; its byte lies at the operand register's end
            IINC = [Ldvp opd] [Ldo] [Add] [Star opd] [Ldmi] [Ldo8] [Add] [Stmi nxt];

            // wide: 0 is the opcode under it, 1 and AR are the place of the local
            WIDE = [Nop opd] [Ldo opd] [Stm 0] [Nop opd] [Ldvp] [Ldo] [Ldi LOW_16] [And] [Add] [Stm 1]
                [Ldm 1] [Star] [Ldm 0] [Ldi OP_IINC] [Xor] [Bz WIDE_IINC] [Ldm 0] [Ldi OP_LLOAD] [Xor]
                [Bz WIDE_LLOAD] [Ldm 0] [Ldi OP_LSTORE] [Xor] [Bz WIDE_LSTORE] [Ldm 0] [Ldi OP_ISTORE]
                [Slt] [Bnz WIDE_LOAD] [Stmi nxt];
            WIDE_LOAD = [Ldmi nxt];
            WIDE_IINC = [Nop opd] [Nop opd] [Ldmi] [Ldo16] [Add] [Stmi nxt];

            // 2 is the low word
            WIDE_LLOAD = [Ldmi] [Ldm 1] [Ldi 1] [Add] [Star] [Ldmi nxt];
            WIDE_LSTORE = [Stm 2] [Stmi] [Ldm 1] [Ldi 1] [Add] [Star] [Ldm 2] [Stmi nxt];

            // The stack. The scratch words hold what was on it, place 0 the top.

            // pop, pop2
            POP = [Pop nxt];
            POP2 = [Pop] [Pop nxt];

            // dup, dup_x1, dup_x2, dup2, dup2_x1, dup2_x2, swap
            DUP = [Dup nxt];
            DUP_X1 = [Stm 0] [Stm 1] [Ldm 0] [Ldm 1] [Ldm 0 nxt];
            DUP_X2 = [Stm 0] [Stm 1] [Stm 2] [Ldm 0] [Ldm 2] [Ldm 1] [Ldm 0 nxt];
            DUP2 = [Stm 0] [Stm 1] [Ldm 1] [Ldm 0] [Ldm 1] [Ldm 0 nxt];
            DUP2_X1 = [Stm 0] [Stm 1] [Stm 2] [Ldm 1] [Ldm 0] [Ldm 2] [Ldm 1] [Ldm 0 nxt];
            DUP2_X2 = [Stm 0] [Stm 1] [Stm 2] [Stm 3] [Ldm 1] [Ldm 0] [Ldm 3] [Ldm 2] [Ldm 1] [Ldm 0 nxt];
            SWAP = [Stm 0] [Stm 1] [Ldm 0] [Ldm 1 nxt];

            // Ints.

            // iadd, isub, imul, iand, ior, ixor, ishl, ishr, iushr
            IADD = [Add nxt];
            ISUB = [Sub nxt];
            IMUL = [Mul nxt];
            IAND = [And nxt];
            IOR = [Or nxt];
            IXOR = [Xor nxt];
            ISHL = [Shl nxt];
            ISHR = [Shr nxt];
            IUSHR = [Ushr nxt];

            // ineg
            INEG = [Ldi ONES] [Mul nxt];

            // i2b, i2c, i2s
            I2B = [Ldi 24] [Shl] [Ldi 24] [Shr nxt];
            I2C = [Ldi LOW_16] [And nxt];
            I2S = [Ldi 16] [Shl] [Ldi 16] [Shr nxt];

            // Division of ints. AR is the place of the result: 4 the quotient, 2 the remainder.

            // idiv, irem
            IDIV = [Ldi 4] [Star] [Jmp DIVIDE];
            IREM = [Ldi 2] [Star];

            // The magnitudes of dividend D and divisor d go to places 0 and 1, the factors 1 or -1 that make them so to places
            // 5 and 6, and 0, 0 and 31 to q, r and k, at places 4, 2 and 3.
            DIVIDE = [Stm 1] [Stm 0] [Ldm 1] [Bz RAISE_ARITHMETIC] [Ldi 1] [Ldm 0] [Ldi 31] [Ushr] [Dup]
                [Add] [Sub] [Stm 5] [Ldi 1] [Ldm 1] [Ldi 31] [Ushr] [Dup] [Add] [Sub] [Stm 6] [Ldm 0]
                [Ldm 5] [Mul] [Stm 0] [Ldm 1] [Ldm 6] [Mul] [Stm 1] [Ldi 0] [Stm 2] [Ldi 0] [Stm 4]
                [Ldi 31] [Stm 3];

            // Here D >> (k + 1) is q * d + r, and r < d <= 2^31; q and r take in bit k, from 31 down. 7 is 1 where d goes into r.
            DIVIDE_TURN = [Ldm 2] [Dup] [Add] [Ldm 0] [Ldm 3] [Ushr] [Ldi 1] [And] [Add] [Stm 2] [Ldi 1]
                [Ldm 2] [Ldm 1] [Sltu] [Sub] [Stm 7] [Ldm 2] [Ldm 1] [Ldm 7] [Mul] [Sub] [Stm 2] [Ldm 4]
                [Dup] [Add] [Ldm 7] [Add] [Stm 4] [Ldm 3] [Dup] [Ldi 1] [Sub] [Stm 3] [Bnz DIVIDE_TURN];

            // the signs of the quotient and of the remainder
            DIVIDE_SIGNS = [Ldm 4] [Ldm 5] [Mul] [Ldm 6] [Mul] [Stm 4] [Ldm 2] [Ldm 5] [Mul] [Stm 2]
                [Ldmi nxt];

            // Longs, the high word below the low one. Sums and the like: 0 and 1 are the low and the high word of the
            // upper long, 2 and 3 those of the lower one, 4 the low word of the sum.

            // ladd: the carry is 1 where the low word of the sum is less than a low word
            LADD = [Stm 0] [Stm 1] [Stm 2] [Stm 3] [Ldm 2] [Ldm 0] [Add] [Stm 4] [Ldm 3] [Ldm 1] [Add]
                [Ldm 4] [Ldm 0] [Sltu] [Add] [Ldm 4 nxt];

            // lsub, lneg: the borrow is 1 where the low word is less than what is taken from it
            LSUB = [Stm 0] [Stm 1] [Stm 2] [Stm 3] [Ldm 3] [Ldm 1] [Sub] [Ldm 2] [Ldm 0] [Sltu] [Sub]
                [Ldm 2] [Ldm 0] [Sub nxt];
            LNEG = [Stm 0] [Stm 1] [Ldi 0] [Ldm 1] [Sub] [Ldi 0] [Ldm 0] [Sltu] [Sub] [Ldi 0] [Ldm 0]
                [Sub nxt];

            // land, lor, lxor: 2 is the low word of the lower long
            LAND = [Stm 0] [Stm 1] [Stm 2] [Ldm 1] [And] [Ldm 2] [Ldm 0] [And nxt];
            LOR = [Stm 0] [Stm 1] [Stm 2] [Ldm 1] [Or] [Ldm 2] [Ldm 0] [Or nxt];
            LXOR = [Stm 0] [Stm 1] [Stm 2] [Ldm 1] [Xor] [Ldm 2] [Ldm 0] [Xor nxt];

            // lshl, lshr, lushr: 0 is the count, 1 the low word, 2 the high word. A shift of the machine is by the low five bits, so
            // bit 5 of the count is tested. Bits cross the words by a shift of 1 and one of 31 - count, as 32 - 0 is none.
            LSHL = [Stm 0] [Stm 1] [Stm 2] [Ldm 0] [Ldi BIT_5] [And] [Bnz LSHL_HIGH] [Ldm 2] [Ldm 0] [Shl]
                [Ldm 1] [Ldi 1] [Ushr] [Ldi 31] [Ldm 0] [Sub] [Ushr] [Add] [Ldm 1] [Ldm 0] [Shl nxt];
            LSHL_HIGH = [Ldm 1] [Ldm 0] [Shl] [Ldi 0 nxt];
            LSHR = [Stm 0] [Stm 1] [Stm 2] [Ldm 0] [Ldi BIT_5] [And] [Bnz LSHR_HIGH] [Ldm 2] [Ldm 0] [Shr]
                [Ldm 1] [Ldm 0] [Ushr] [Ldm 2] [Ldi 1] [Shl] [Ldi 31] [Ldm 0] [Sub] [Shl] [Add nxt];
            LSHR_HIGH = [Ldm 2] [Ldi 31] [Shr] [Ldm 2] [Ldm 0] [Shr nxt];
            LUSHR = [Stm 0] [Stm 1] [Stm 2] [Ldm 0] [Ldi BIT_5] [And] [Bnz LUSHR_HIGH] [Ldm 2] [Ldm 0]
                [Ushr] [Ldm 1] [Ldm 0] [Ushr] [Ldm 2] [Ldi 1] [Shl] [Ldi 31] [Ldm 0] [Sub] [Shl]
                [Add nxt];
            LUSHR_HIGH = [Ldi 0] [Ldm 2] [Ldm 0] [Ushr nxt];

            // i2l, l2i
            I2L = [Dup] [Stm 0] [Ldi 31] [Shr] [Ldm 0 nxt];
            L2I = [Stm 0] [Pop] [Ldm 0 nxt];

            // lcmp: the sign of twice the sign of the high words and the sign of the low ones; 4 is that sum
            LCMP = [Stm 0] [Stm 1] [Stm 2] [Stm 3] [Ldm 1] [Ldm 3] [Slt] [Ldm 3] [Ldm 1] [Slt] [Sub]
                [Dup] [Add] [Ldm 0] [Ldm 2] [Sltu] [Ldm 2] [Ldm 0] [Sltu] [Sub] [Add] [Stm 4] [Ldi 0]
                [Ldm 4] [Slt] [Ldm 4] [Ldi 0] [Slt] [Sub nxt];

            // Branches.

            // ifeq to ifle, ifnull, ifnonnull
            IFEQ = [Nop opd] [Nop opd] [Jbr] [Nop nxt];

            // if_icmpeq to if_icmple, if_acmpeq, if_acmpne
            IF_ICMPEQ = [Nop opd] [Nop opd] [Jbr] [Pop nxt];

            // goto, goto_w
            GOTO = [Nop opd] [Nop opd] [Jbg] [Nop nxt];
            GOTO_W = [Ldjpc] [Ldi 1] [Sub] [Nop opd] [Nop opd] [Nop opd] [Nop opd] [Ldo] [Add] [Stjpc nxt];

            // Switches. 0 is the place of the instruction, 1 the offset that is taken. The padding ends where jpc is next a
            // multiple of 4.

            // tableswitch: 2 is the least key, 3 the greatest, 4 the key; the offsets lie one behind the other
            TABLESWITCH = [Stm 4] [Ldjpc] [Ldi 1] [Sub] [Stm 0] [Ldjpc] [Ldi 3] [Add] [Ldi 2] [Ushr]
                [Ldi 2] [Shl] [Stjpc] [Nop opd] [Nop opd] [Nop opd] [Nop opd] [Ldo] [Stm 1] [Nop opd]
                [Nop opd] [Nop opd] [Nop opd] [Ldo] [Stm 2] [Nop opd] [Nop opd] [Nop opd] [Nop opd] [Ldo]
                [Stm 3] [Ldm 4] [Ldm 2] [Slt] [Bnz TABLE_JUMP] [Ldm 3] [Ldm 4] [Slt] [Bnz TABLE_JUMP]
                [Ldjpc] [Ldm 4] [Ldm 2] [Sub] [Ldi 2] [Shl] [Add] [Stjpc] [Nop opd] [Nop opd] [Nop opd]
                [Nop opd] [Ldo] [Stm 1];
            TABLE_JUMP = [Ldm 0] [Ldm 1] [Add] [Stjpc nxt];

            // lookupswitch: 2 is the key, 3 the number of the pairs left
            LOOKUPSWITCH = [Stm 2] [Ldjpc] [Ldi 1] [Sub] [Stm 0] [Ldjpc] [Ldi 3] [Add] [Ldi 2] [Ushr]
                [Ldi 2] [Shl] [Stjpc] [Nop opd] [Nop opd] [Nop opd] [Nop opd] [Ldo] [Stm 1] [Nop opd]
                [Nop opd] [Nop opd] [Nop opd] [Ldo] [Stm 3];
            LOOKUP_TURN = [Ldm 3] [Bz LOOKUP_JUMP] [Nop opd] [Nop opd] [Nop opd] [Nop opd] [Ldo] [Ldm 2]
                [Xor] [Bz LOOKUP_HIT] [Nop opd] [Nop opd] [Nop opd] [Nop opd] [Ldm 3] [Ldi 1] [Sub]
                [Stm 3] [Jmp LOOKUP_TURN];
            LOOKUP_HIT = [Nop opd] [Nop opd] [Nop opd] [Nop opd] [Ldo] [Stm 1];
            LOOKUP_JUMP = [Ldm 0] [Ldm 1] [Add] [Stjpc nxt];

            // Arrays: the type, the length, then the elements. 0 is the array, 1 the index, 2 the value.

            // iaload, aaload, baload, caload, saload: a store has brought the word into the range of the element
            IALOAD = [Stm 1] [Stm 0] [Ldm 0] [Bz RAISE_NULL] [Ldm 1] [Ldm 0] [Ldi 1] [Add] [Stmra] [Wait]
                [Ldmrd] [Sltu] [Bz RAISE_INDEX] [Ldm 0] [Ldm 1] [Add] [Ldi 2] [Add] [Stmra] [Wait]
                [Ldmrd nxt];

            // laload: the element is two words
            LALOAD = [Stm 1] [Stm 0] [Ldm 0] [Bz RAISE_NULL] [Ldm 1] [Ldm 0] [Ldi 1] [Add] [Stmra] [Wait]
                [Ldmrd] [Sltu] [Bz RAISE_INDEX] [Ldm 0] [Ldi 2] [Add] [Ldm 1] [Dup] [Add] [Add] [Stm 0]
                [Ldm 0] [Stmra] [Wait] [Ldmrd] [Ldm 0] [Ldi 1] [Add] [Stmra] [Wait] [Ldmrd nxt];

            // bastore, castore, sastore, iastore
            BASTORE = [Ldi 24] [Shl] [Ldi 24] [Shr] [Stm 2] [Jmp STORE_ELEMENT];
            CASTORE = [Ldi LOW_16] [And] [Stm 2] [Jmp STORE_ELEMENT];
            SASTORE = [Ldi 16] [Shl] [Ldi 16] [Shr] [Stm 2] [Jmp STORE_ELEMENT];
            IASTORE = [Stm 2];
            STORE_ELEMENT = [Stm 1] [Stm 0] [Ldm 0] [Bz RAISE_NULL] [Ldm 1] [Ldm 0] [Ldi 1] [Add] [Stmra]
                [Wait] [Ldmrd] [Sltu] [Bz RAISE_INDEX] [Ldm 0] [Ldm 1] [Add] [Ldi 2] [Add] [Stmwa] [Ldm 2]
                [Stmwd] [Wait nxt];

            // lastore: 2 is the high word, 3 the low word; 0 is the place of the element
            LASTORE = [Stm 3] [Stm 2] [Stm 1] [Stm 0] [Ldm 0] [Bz RAISE_NULL] [Ldm 1] [Ldm 0] [Ldi 1]
                [Add] [Stmra] [Wait] [Ldmrd] [Sltu] [Bz RAISE_INDEX] [Ldm 0] [Ldi 2] [Add] [Ldm 1] [Dup]
                [Add] [Add] [Stm 0] [Ldm 0] [Stmwa] [Ldm 2] [Stmwd] [Wait] [Ldm 0] [Ldi 1] [Add] [Stmwa]
                [Ldm 3] [Stmwd] [Wait nxt];

            // aastore: 3 is the number of the array's component type, 4 the type of the value
            AASTORE = [Stm 2] [Stm 1] [Stm 0] [Ldm 0] [Bz RAISE_NULL] [Ldm 1] [Ldm 0] [Ldi 1] [Add]
                [Stmra] [Wait] [Ldmrd] [Sltu] [Bz RAISE_INDEX] [Ldm 2] [Bz STORE_REFERENCE] [Ldm 0] [Stmra]
                [Wait] [Ldmrd] [Ldi 2] [Add] [Stmra] [Wait] [Ldmrd] [Ldi 1] [Sub] [Stm 3] [Ldm 2] [Stmra]
                [Wait] [Ldmrd] [Stm 4] [Ldm 4] [Ldi 5] [Add] [Ldm 3] [Ldi 5] [Ushr] [Add] [Stmra] [Wait]
                [Ldmrd] [Ldm 3] [Ushr] [Ldi 1] [And] [Bz RAISE_STORE];
            STORE_REFERENCE = [Ldm 0] [Ldm 1] [Add] [Ldi 2] [Add] [Stmwa] [Ldm 2] [Stmwd] [Wait nxt];

            // arraylength
            ARRAYLENGTH = [Stm 0] [Ldm 0] [Bz RAISE_NULL] [Ldm 0] [Ldi 1] [Add] [Stmra] [Wait] [Ldmrd nxt];

            // Fields. 0 is the place of the pool entry; its first word says where the field is and its second one is 1
            // where the field is a long.

            // getstatic: 1 is the place
            GETSTATIC = [Nop opd] [Nop opd] [Ldo] [Dup] [Add] [Ldm POOL] [Add] [Stm 0] [Ldm 0] [Stmra]
                [Wait] [Ldmrd] [Stm 1] [Ldm 1] [Stmra] [Wait] [Ldmrd] [Ldm 0] [Ldi 1] [Add] [Stmra]
                [Wait] [Ldmrd] [Bz FIELD_LOADED] [Ldm 1] [Ldi 1] [Add] [Stmra] [Wait] [Ldmrd nxt];

            // putstatic: 1 is the place, 2 the value or its high word, 3 its low word
            PUTSTATIC = [Nop opd] [Nop opd] [Ldo] [Dup] [Add] [Ldm POOL] [Add] [Stm 0] [Ldm 0] [Ldi 1]
                [Add] [Stmra] [Wait] [Ldmrd] [Bz PUTSTATIC_WORD] [Stm 3] [Stm 2] [Ldm 0] [Stmra] [Wait]
                [Ldmrd] [Stm 1] [Ldm 1] [Ldi 1] [Add] [Stmwa] [Ldm 3] [Stmwd] [Wait] [Ldm 1] [Stmwa]
                [Ldm 2] [Stmwd] [Wait nxt];
            PUTSTATIC_WORD = [Stm 2] [Ldm 0] [Stmra] [Wait] [Ldmrd] [Stmwa] [Ldm 2] [Stmwd] [Wait nxt];

            // getfield: 1 is the object, then the place of the field
            GETFIELD = [Nop opd] [Nop opd] [Stm 1] [Ldm 1] [Bz RAISE_NULL] [Ldo] [Dup] [Add] [Ldm POOL]
                [Add] [Stm 0] [Ldm 0] [Stmra] [Wait] [Ldmrd] [Ldm 1] [Add] [Stm 1] [Ldm 1] [Stmra] [Wait]
                [Ldmrd] [Ldm 0] [Ldi 1] [Add] [Stmra] [Wait] [Ldmrd] [Bz FIELD_LOADED] [Ldm 1] [Ldi 1]
                [Add] [Stmra] [Wait] [Ldmrd nxt];
            FIELD_LOADED = [Nop nxt];

            // putfield: 1 is the object, then the place of the field, 2 the value or its high word, 3 its low word
            PUTFIELD = [Nop opd] [Nop opd] [Ldo] [Dup] [Add] [Ldm POOL] [Add] [Stm 0] [Ldm 0] [Ldi 1]
                [Add] [Stmra] [Wait] [Ldmrd] [Bz PUTFIELD_WORD] [Stm 3] [Stm 2] [Stm 1] [Ldm 1]
                [Bz RAISE_NULL] [Ldm 0] [Stmra] [Wait] [Ldmrd] [Ldm 1] [Add] [Stm 1] [Ldm 1] [Ldi 1] [Add]
                [Stmwa] [Ldm 3] [Stmwd] [Wait] [Ldm 1] [Stmwa] [Ldm 2] [Stmwd] [Wait nxt];
            PUTFIELD_WORD = [Stm 2] [Stm 1] [Ldm 1] [Bz RAISE_NULL] [Ldm 0] [Stmra] [Wait] [Ldmrd] [Ldm 1]
                [Add] [Stmwa] [Ldm 2] [Stmwd] [Wait nxt];

            // Allocation. 0 is the place of the type, 1 the length of the array, 2 the next heap word after the object, 3 is 1
            // where the elements are longs. The memory is zero and a word is handed out once, so nothing is cleared.

            // new
            NEW = [Nop opd] [Nop opd] [Ldo] [Dup] [Add] [Ldm POOL] [Add] [Stmra] [Wait] [Ldmrd] [Stm 0]
                [Ldm 0] [Ldi 1] [Add] [Stmra] [Wait] [Ldmrd] [Ldm HEAP] [Add] [Stm 2] [Ldm MEMORY_END]
                [Ldm 2] [Sltu] [Bnz RAISE_MEMORY] [Ldm HEAP] [Stmwa] [Ldm 0] [Stmwd] [Wait] [Ldm HEAP]
                [Ldm 2] [Stm HEAP nxt];

            // newarray: the list of the primitive arrays lies where word 5 of the memory says, and begins with code 4
            NEWARRAY = [Nop opd] [Ldo] [Ldi T_LONG] [Xor] [Bz NEWARRAY_LONG] [Ldi 0] [Stm 3]
                [Jmp NEWARRAY_SIZED];
            NEWARRAY_LONG = [Ldi 1] [Stm 3];
            NEWARRAY_SIZED = [Ldi 5] [Stmra] [Wait] [Ldmrd] [Ldo] [Add] [Ldi 4] [Sub] [Stmra] [Wait]
                [Ldmrd] [Stm 0] [Jmp ALLOCATE_ARRAY];

            // anewarray
            ANEWARRAY = [Nop opd] [Nop opd] [Ldo] [Dup] [Add] [Ldm POOL] [Add] [Ldi 1] [Add] [Stmra]
                [Wait] [Ldmrd] [Stm 0] [Ldi 0] [Stm 3];

            // The first test keeps the doubled length below 2^32.
            ALLOCATE_ARRAY = [Stm 1] [Ldm 1] [Ldi 0] [Slt] [Bnz RAISE_SIZE] [Ldm MEMORY_END] [Ldm 1] [Sltu]
                [Bnz RAISE_MEMORY] [Ldm HEAP] [Ldi 2] [Add] [Ldm 1] [Ldm 3] [Shl] [Add] [Stm 2]
                [Ldm MEMORY_END] [Ldm 2] [Sltu] [Bnz RAISE_MEMORY] [Ldm HEAP] [Stmwa] [Ldm 0] [Stmwd]
                [Wait] [Ldm HEAP] [Ldi 1] [Add] [Stmwa] [Ldm 1] [Stmwd] [Wait] [Ldm HEAP] [Ldm 2]
                [Stm HEAP nxt];

            // Tests of a type: bit t % 32 of word 5 + t / 32 of a type says whether the type of number t is a supertype of it.
            // 0 is the object, 1 the number asked for, 2 the type of the object.

            // checkcast
            CHECKCAST = [Nop opd] [Nop opd] [Dup] [Stm 0] [Ldm 0] [Bz CAST_PASSES] [Ldo] [Dup] [Add]
                [Ldm POOL] [Add] [Stmra] [Wait] [Ldmrd] [Stmra] [Wait] [Ldmrd] [Stm 1] [Ldm 0] [Stmra]
                [Wait] [Ldmrd] [Stm 2] [Ldm 2] [Ldi 5] [Add] [Ldm 1] [Ldi 5] [Ushr] [Add] [Stmra] [Wait]
                [Ldmrd] [Ldm 1] [Ushr] [Ldi 1] [And] [Bz RAISE_CAST];
            CAST_PASSES = [Nop nxt];

            // instanceof
            INSTANCEOF = [Nop opd] [Nop opd] [Stm 0] [Ldm 0] [Bz INSTANCEOF_NULL] [Ldo] [Dup] [Add]
                [Ldm POOL] [Add] [Stmra] [Wait] [Ldmrd] [Stmra] [Wait] [Ldmrd] [Stm 1] [Ldm 0] [Stmra]
                [Wait] [Ldmrd] [Stm 2] [Ldm 2] [Ldi 5] [Add] [Ldm 1] [Ldi 5] [Ushr] [Add] [Stmra] [Wait]
                [Ldmrd] [Ldm 1] [Ushr] [Ldi 1] [And] [Nop nxt];
            INSTANCEOF_NULL = [Ldi 0 nxt];

            // monitorenter, monitorexit
            MONITORENTER = [Bz RAISE_NULL] [Nop nxt];

            // Calls. 0 is the method, 1 the words of its arguments, 2 the second word of the pool entry, 3 the receiver, 6 the SP
            // to be saved, which is that below the arguments. Two pushes and two pops bring A and B into the on-chip words.

            // invokevirtual: the method table is word 3 of the receiver's type
            INVOKEVIRTUAL = [Nop opd] [Nop opd] [Ldo] [Dup] [Add] [Ldm POOL] [Add] [Ldi 1] [Add] [Stmra]
                [Wait] [Ldmrd] [Stm 2] [Ldm 2] [Ldi 24] [Ushr] [Stm 1] [Ldsp] [Ldm 1] [Sub] [Stm 6] [Dup]
                [Dup] [Pop] [Pop] [Ldm 6] [Ldi 3] [Add] [Star] [Ldmi] [Stm 3] [Ldm 3] [Bz RAISE_NULL]
                [Ldm 3] [Stmra] [Wait] [Ldmrd] [Ldi 3] [Add] [Stmra] [Wait] [Ldmrd] [Ldm 2] [Ldi LOW_24]
                [And] [Add] [Stmra] [Wait] [Ldmrd] [Stm 0] [Jmp INVOKE];

            // invokeinterface: the interface table is word 4 of the receiver's type
            INVOKEINTERFACE = [Nop opd] [Nop opd] [Ldo] [Dup] [Add] [Ldm POOL] [Add] [Ldi 1] [Add]
                [Stmra] [Wait] [Ldmrd] [Stm 2] [Ldm 2] [Ldi 24] [Ushr] [Stm 1] [Ldsp] [Ldm 1] [Sub]
                [Stm 6] [Dup] [Dup] [Pop] [Pop] [Ldm 6] [Ldi 3] [Add] [Star] [Ldmi] [Stm 3] [Ldm 3]
                [Bz RAISE_NULL] [Ldm 3] [Stmra] [Wait] [Ldmrd] [Ldi 4] [Add] [Stmra] [Wait] [Ldmrd]
                [Ldm 2] [Ldi LOW_24] [And] [Add] [Stmra] [Wait] [Ldmrd] [Stm 0] [Ldm 0] [Bz RAISE_CHANGE]
                [Nop opd] [Nop opd] [Jmp INVOKE];

            // invokespecial: the argument words are in the method's record
            INVOKESPECIAL = [Nop opd] [Nop opd] [Ldo] [Dup] [Add] [Ldm POOL] [Add] [Stmra] [Wait] [Ldmrd]
                [Stm 0] [Ldm 0] [Ldi 1] [Add] [Stmra] [Wait] [Ldmrd] [Ldi 16] [Ushr] [Stm 1] [Ldsp]
                [Ldm 1] [Sub] [Stm 6] [Dup] [Dup] [Pop] [Pop] [Ldm 6] [Ldi 3] [Add] [Star] [Ldmi] [Stm 3]
                [Ldm 3] [Bz RAISE_NULL] [Jmp INVOKE];

            // invokestatic
            INVOKESTATIC = [Nop opd] [Nop opd] [Ldo] [Dup] [Add] [Ldm POOL] [Add] [Stmra] [Wait] [Ldmrd]
                [Stm 0] [Ldm 0] [Ldi 1] [Add] [Stmra] [Wait] [Ldmrd] [Ldi 16] [Ushr] [Stm 1] [Ldsp]
                [Ldm 1] [Sub] [Stm 6];

            // The frame: 4 is max_locals, 5 the sum of the frames with the new one, 7 the pool of the callee, 8 the caller's VP. Its
            // saved words are SP, jpc, VP, pool and method. From the store of FRAMES on nothing raises.
            INVOKE = [Ldm 0] [Stmra] [Wait] [Ldmrd] [Stm 4] [Ldm 4] [Ldi LOW_16] [And] [Ldm 4] [Ldi 16]
                [Ushr] [Stm 4] [Ldm 4] [Add] [Ldi 5] [Add] [Ldm FRAMES] [Add] [Stm 5] [Ldm FRAMES_MOST]
                [Ldm 5] [Sltu] [Bnz RAISE_OVERFLOW] [Ldm 0] [Ldi 2] [Add] [Stmra] [Wait] [Ldmrd] [Stm 7]
                [Ldm 5] [Stm FRAMES] [Ldvp] [Stm 8] [Ldm 6] [Ldi 3] [Add] [Stvp] [Ldvp] [Ldm 4] [Add]
                [Ldi 1] [Sub] [Stm 15] [Dup] [Dup] [Pop] [Pop] [Ldm 15] [Stsp] [Pop] [Pop] [Ldm 6]
                [Ldjpc] [Ldm 8] [Ldm POOL] [Ldm METHOD] [Ldm 7] [Stm POOL] [Ldm 0] [Stm METHOD] [Ldm 0]
                [Stbc] [Ldi 0] [Stjpc nxt];

            // Returns. 0 is the result or its low word, 1 its high word, 4 the max_locals of the method. The frame of the caller
            // begins below the five saved words, which lie above the locals. Boot, which alone has VP 64, ends the run.

            // return, ireturn and areturn, lreturn
            RETURN = [Hltb] [Ldm METHOD] [Stmra] [Wait] [Ldmrd] [Stm 4] [Ldm FRAMES] [Ldm 4] [Ldi LOW_16]
                [And] [Sub] [Ldm 4] [Ldi 16] [Ushr] [Stm 4] [Ldm 4] [Sub] [Ldi 5] [Sub] [Stm FRAMES]
                [Ldvp] [Ldm 4] [Add] [Ldi 4] [Add] [Stm 15] [Dup] [Dup] [Pop] [Pop] [Ldm 15] [Stsp] [Pop]
                [Pop] [Stm METHOD] [Stm POOL] [Stvp] [Stjpc] [Ldi 2] [Add] [Stm 15] [Dup] [Dup] [Pop]
                [Pop] [Ldm 15] [Stsp] [Pop] [Pop] [Ldm METHOD] [Stbc] [Nop nxt];
            IRETURN = [Stm 0] [Ldm METHOD] [Stmra] [Wait] [Ldmrd] [Stm 4] [Ldm FRAMES] [Ldm 4]
                [Ldi LOW_16] [And] [Sub] [Ldm 4] [Ldi 16] [Ushr] [Stm 4] [Ldm 4] [Sub] [Ldi 5] [Sub]
                [Stm FRAMES] [Ldvp] [Ldm 4] [Add] [Ldi 4] [Add] [Stm 15] [Dup] [Dup] [Pop] [Pop] [Ldm 15]
                [Stsp] [Pop] [Pop] [Stm METHOD] [Stm POOL] [Stvp] [Stjpc] [Ldi 2] [Add] [Stm 15] [Dup]
                [Dup] [Pop] [Pop] [Ldm 15] [Stsp] [Pop] [Pop] [Ldm METHOD] [Stbc] [Ldm 0 nxt];
            LRETURN = [Stm 0] [Stm 1] [Ldm METHOD] [Stmra] [Wait] [Ldmrd] [Stm 4] [Ldm FRAMES] [Ldm 4]
                [Ldi LOW_16] [And] [Sub] [Ldm 4] [Ldi 16] [Ushr] [Stm 4] [Ldm 4] [Sub] [Ldi 5] [Sub]
                [Stm FRAMES] [Ldvp] [Ldm 4] [Add] [Ldi 4] [Add] [Stm 15] [Dup] [Dup] [Pop] [Pop] [Ldm 15]
                [Stsp] [Pop] [Pop] [Stm METHOD] [Stm POOL] [Stvp] [Stjpc] [Ldi 2] [Add] [Stm 15] [Dup]
                [Dup] [Pop] [Pop] [Ldm 15] [Stsp] [Pop] [Pop] [Ldm METHOD] [Stbc] [Ldm 1] [Ldm 0 nxt];

            // Devices.

            // impdep1 takes a byte in, impdep2 puts one out
            IMPDEP1 = [Ldin nxt];
            IMPDEP2 = [Stout nxt];

            // Raising. An opcode that raises comes to one of the stubs, each of which has a number of the raise list.

            // athrow
            ATHROW = [Stm 0] [Ldm 0] [Bz RAISE_NULL] [Ldm 0] [Stm RAISED] [Jmp RAISE];

            // ArithmeticException, ArrayIndexOutOfBoundsException, ArrayStoreException, ClassCastException,
            // IncompatibleClassChangeError, NegativeArraySizeException, NullPointerException, OutOfMemoryError and
            // StackOverflowError
            RAISE_ARITHMETIC = [Ldi 0] [Jmp RAISE_OBJECT];
            RAISE_INDEX = [Ldi 1] [Jmp RAISE_OBJECT];
            RAISE_STORE = [Ldi 2] [Jmp RAISE_OBJECT];
            RAISE_CAST = [Ldi 3] [Jmp RAISE_OBJECT];
            RAISE_CHANGE = [Ldi 4] [Jmp RAISE_OBJECT];
            RAISE_SIZE = [Ldi 5] [Jmp RAISE_OBJECT];
            RAISE_NULL = [Ldi 6] [Jmp RAISE_OBJECT];
            RAISE_MEMORY = [Ldi 7] [Jmp RAISE_OBJECT];
            RAISE_OVERFLOW = [Ldi 8];
            RAISE_OBJECT = [Ldm RAISE_LIST] [Add] [Stmra] [Wait] [Ldmrd] [Stm RAISED];

            // One step over the top frame. 10 is the type of the object, 11 the number of entries left, 12 the place of the entry,
            // 13 its range, then its handler, 14 the number of its type.
            RAISE = [Ldm RAISED] [Stmra] [Wait] [Ldmrd] [Stm 10] [Ldm METHOD] [Ldi 3] [Add] [Stmra]
                [Wait] [Ldmrd] [Stm 11] [Ldm METHOD] [Ldi 4] [Add] [Stm 12];
            HANDLER_TURN = [Ldm 11] [Bz DROP_FRAME] [Ldm 12] [Stmra] [Wait] [Ldmrd] [Stm 13] [Ldm 13]
                [Ldi 16] [Ushr] [Ldjpc] [Slt] [Bz HANDLER_NEXT] [Ldm 13] [Ldi LOW_16] [And] [Ldjpc] [Slt]
                [Bnz HANDLER_NEXT] [Ldm 12] [Ldi 2] [Add] [Stmra] [Wait] [Ldmrd] [Stm 14] [Ldm 14]
                [Bz HANDLER_FOUND] [Ldm 14] [Ldi 1] [Sub] [Stm 14] [Ldm 10] [Ldi 5] [Add] [Ldm 14] [Ldi 5]
                [Ushr] [Add] [Stmra] [Wait] [Ldmrd] [Ldm 14] [Ushr] [Ldi 1] [And] [Bnz HANDLER_FOUND];
            HANDLER_NEXT = [Ldm 12] [Ldi 3] [Add] [Stm 12] [Ldm 11] [Ldi 1] [Sub] [Stm 11]
                [Jmp HANDLER_TURN];

            // The stack of the frame becomes the object alone.
            HANDLER_FOUND = [Ldm 12] [Ldi 1] [Add] [Stmra] [Wait] [Ldmrd] [Stm 13] [Ldm METHOD] [Stmra]
                [Wait] [Ldmrd] [Ldi 16] [Ushr] [Ldvp] [Add] [Ldi 4] [Add] [Stm 15] [Dup] [Dup] [Pop]
                [Pop] [Ldm 15] [Stsp] [Pop] [Pop] [Ldm METHOD] [Stbc] [Ldm 13] [Stjpc] [Ldm RAISED nxt];

            // No entry catches: the frame goes as by a return.
            DROP_FRAME = [Hltu] [Ldm METHOD] [Stmra] [Wait] [Ldmrd] [Stm 4] [Ldm FRAMES] [Ldm 4]
                [Ldi LOW_16] [And] [Sub] [Ldm 4] [Ldi 16] [Ushr] [Stm 4] [Ldm 4] [Sub] [Ldi 5] [Sub]
                [Stm FRAMES] [Ldvp] [Ldm 4] [Add] [Ldi 4] [Add] [Stm 15] [Dup] [Dup] [Pop] [Pop] [Ldm 15]
                [Stsp] [Pop] [Pop] [Stm METHOD] [Stm POOL] [Stvp] [Stjpc] [Ldi 2] [Add] [Stm 15] [Dup]
                [Dup] [Pop] [Pop] [Ldm 15] [Stsp] [Pop] [Pop] [Jmp RAISE];
        }
    };
}
