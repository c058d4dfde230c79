//! Each call, and what is shown of its answer.
use super::Row;

/// Each call, and what is shown of its answer.
pub const CALLS: &[Row] = &[
    Row {
        shows: "the payload of another operation",
        words: &["replay"],
        script: b"activate k1 <OK0(13, 94 \"k1\")>\n",
        written: "> <REQ0(12, 94 \"k1\")>\n- Internal error: Response operation Some(Revoke) does not match request operation Activate\n",
        status: 1,
    },
    Row {
        shows: "what the server can do",
        words: &["replay"],
        script: b"query <OK2(18, 5C e1,5C e18,57 e2,9D \"x\")>\n",
        written: "> 42007801000000904200770100000038420069010000002042006A0200000004000000010000000042006B0200000004000000020000000042000D0200000004000000010000000042000F010000004842005C050000000400000018000000004200790100000030420074050000000400000001000000004200740500000004000000020000000042007405000000040000000300000000\n= {operations=[Create,Query],object_types=[SymmetricKey],vendor_identification=\"x\"}\n",
        status: 0,
    },
    Row {
        shows: "a key that is not found",
        words: &["replay"],
        script: b"destroy k1 <RES0(5C e14,7F e1,7E e1,7D \"gone\")>\n",
        written: "> <REQ0(14, 94 \"k1\")>\n- Item not found: Operation Destroy failed: gone\n",
        status: 1,
    },
    Row {
        shows: "the identifiers of a pair",
        words: &["replay"],
        script: b"create-rsa 2048 priv pub <OK0(2, 66 \"a\",6F \"b\")>\n",
        written: "> <REQ0(2, 1F{08{0A \"Cryptographic Algorithm\",0B e4},08{0A \"Cryptographic Length\",0B i2048}},65{08{0A \"Name\",0B{55 \"priv\",54 e1}},08{0A \"Cryptographic Usage Mask\",0B i1}},6E{08{0A \"Name\",0B{55 \"pub\",54 e1}},08{0A \"Cryptographic Usage Mask\",0B i2}})>\n= (\"a\",\"b\")\n",
        status: 0,
    },
    Row {
        shows: "a signature",
        words: &["replay"],
        script: b"sign k1 0102 <OK2(21, 94 \"k1\",C3 x0A0B)>\n",
        written: "> <REQ2(21, 94 \"k1\",2B{5F e8,38 e6,28 e4},C2 x0102)>\n= {unique_identifier=\"k1\",signature_data=x\"0A0B\"}\n",
        status: 0,
    },
    Row {
        shows: "a key is revoked",
        words: &["replay"],
        script: b"revoke k1 <OK0(13, 94 \"k1\")>\n",
        written: "> <REQ0(13, 94 \"k1\",81{82 e6})>\n= ()\n",
        status: 0,
    },
    Row {
        shows: "a name with a space",
        words: &["replay"],
        script: b"rename k1 my%20key <OK0(E, 94 \"k1\",08{0A \"Name\",0B{54 e1,55 \"my key\"}})>\n",
        written: "> <REQ0(E, 94 \"k1\",08{0A \"Name\",0B{55 \"my key\",54 e1}})>\n= {unique_identifier=\"k1\",attribute={name=\"Name\",value=Name{name_value=\"my key\",name_type=UninterpretedTextString}}}\n",
        status: 0,
    },
    Row {
        shows: "a symmetric key",
        words: &["replay"],
        script: b"get s1 <OK0(A, 57 e2,94 \"s1\",8F{40{42 e1,45{43 x00112233445566778899AABBCCDDEEFF},28 e3,2A i128}})>\n",
        written: "> <REQ0(A, 94 \"s1\")>\n= {object_type=SymmetricKey,unique_identifier=\"s1\",cryptographic_object=SymmetricKey{key_block={key_format_type=Raw,key_value={key_material=Bytes(x\"00112233445566778899AABBCCDDEEFF\")},cryptographic_algorithm=AES,cryptographic_length=128}}}\n",
        status: 0,
    },
];
