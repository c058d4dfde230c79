//! Calls over a server in memory.
use super::Row;

/// The life of a key, other calls, and words and lines out of the grammar.
pub const JOINED: &[Row] = &[
    Row {
        shows: "the life of a key",
        words: &["joined"],
        script: b"create-rsa 2048 priv pub\nsign 1 01\nactivate 1\nsign 1 01\nget 1\ndestroy 1\nrevoke 1\ndestroy 1\nget 1\nactivate 9\n",
        written: "> <REQ0(2, 1F{08{0A \"Cryptographic Algorithm\",0B e4},08{0A \"Cryptographic Length\",0B i2048}},65{08{0A \"Name\",0B{55 \"priv\",54 e1}},08{0A \"Cryptographic Usage Mask\",0B i1}},6E{08{0A \"Name\",0B{55 \"pub\",54 e1}},08{0A \"Cryptographic Usage Mask\",0B i2}})>\n= (\"1\",\"2\")\n> <REQ2(21, 94 \"1\",2B{5F e8,38 e6,28 e4},C2 x01)>\n- Server error: Operation Sign failed: not allowed in this state\n> <REQ0(12, 94 \"1\")>\n= ()\n> <REQ2(21, 94 \"1\",2B{5F e8,38 e6,28 e4},C2 x01)>\n= {unique_identifier=\"1\",signature_data=x\"0000000000000002\"}\n> <REQ0(A, 94 \"1\")>\n= {object_type=PrivateKey,unique_identifier=\"1\",cryptographic_object=PrivateKey{key_block={key_format_type=PKCS1,key_value={key_material=Bytes(x\"000000000000000101\")},cryptographic_algorithm=RSA,cryptographic_length=2048}}}\n> <REQ0(14, 94 \"1\")>\n- Server error: Operation Destroy failed: not allowed in this state\n> <REQ0(13, 94 \"1\",81{82 e6})>\n= ()\n> <REQ0(14, 94 \"1\")>\n= ()\n> <REQ0(A, 94 \"1\")>\n- Server error: Operation Get failed: not allowed in this state\n> <REQ0(12, 94 \"9\")>\n- Item not found: Operation Activate failed: no such object\n",
        status: 1,
    },
    Row {
        shows: "what the server can do",
        words: &["joined"],
        script: b"query\n",
        written: "> <REQ2(18, 74 e1,74 e2,74 e3)>\n= {operations=[CreateKeyPair,Get,ModifyAttribute,Activate,Revoke,Destroy,Query,Sign,RNGRetrieve],object_types=[PublicKey,PrivateKey]}\n",
        status: 0,
    },
    Row {
        shows: "random bytes of the first answer",
        words: &["joined"],
        script: b"rng 2\n",
        written: "> <REQ2(25, C4 i2)>\n= {random_bytes=x\"0101\"}\n",
        status: 0,
    },
    Row {
        shows: "the diagnostics of a call",
        words: &["joined", "diag"],
        script: b"rng 2",
        written: "> <REQ2(25, C4 i2)>\n>~ 78[77[69[6Ai6Bi]0Di]0F[5Ce25:79[C4i]]]\n<~ 7B[7A[69[6Ai6Bi]92d0Di]0F[5Ce25:7Fe0:7C[C2x]]]\n= {random_bytes=x\"0101\"}\n",
        status: 0,
    },
    Row {
        shows: "what a response over the limit leaves is read next",
        words: &["joined", "limit=151"],
        script: b"rng 2\nactivate 1\n",
        written: "> <REQ2(25, C4 i2)>\n- Deserialize error: response size 152 exceeds limit 151\n> <REQ0(12, 94 \"1\")>\n- Internal error: not a response message\n",
        status: 1,
    },
    Row {
        shows: "an empty script",
        words: &["joined"],
        script: b"",
        written: "",
        status: 0,
    },
    Row {
        shows: "a request by its bytes, which is no line of joined",
        words: &["joined"],
        script: b"rng 2\nraw <REQ0(12, 94 \"1\")>\n",
        written: "> <REQ2(25, C4 i2)>\n= {random_bytes=x\"0101\"}\n! line 2\n",
        status: 2,
    },
    Row {
        shows: "a line with a response",
        words: &["joined"],
        script: b"activate 1 -\n",
        written: "! line 1\n",
        status: 2,
    },
    Row {
        shows: "a call that no line of joined has",
        words: &["joined"],
        script: b"discover\n",
        written: "! line 1\n",
        status: 2,
    },
    Row {
        shows: "a word after joined that is no option",
        words: &["joined", "x"],
        script: b"query\n",
        written: "! words\n",
        status: 2,
    },
];
