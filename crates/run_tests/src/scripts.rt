// Scripts and their answers, which are run over ends that fail.

// One entry of one house. The script has 170 octets, of which the first line has 21.
pub const PLAIN: &[u8] = b"house 1 00000000000a\n\
    root 1\n\
    clock 1 100\n\
    create 1 1 lpr\n\
    add 1 1 lpr CDS_Class 5072\n\
    read 1 low /.:/lpr CDS_Class\n\
    remove 1 1 lpr CDS_Class 5072\n\
    read 1 low /.:/lpr CDS_Class\n";

pub const PLAIN_ANSWERS: &[u8] = b"1 ok\n\
    2 ok\n\
    3 ok\n\
    4 ok 100@00000000000a\n\
    5 ok 101@00000000000a\n\
    6 ok 1 5072\n\
    7 ok 102@00000000000a\n\
    8 ok 0\n";

// A master that missed two epochs comes back.
pub const OLD_MASTER: &[u8] = b"house 1 00000000000a\n\
    house 2 00000000000b\n\
    root 1 2\n\
    deliver 1\n\
    epoch 1 2\n\
    create 1 1 lone\n\
    deliver 3\n\
    skulk 2 1\n\
    epoch 1 2 1\n\
    epoch 1 1 2\n\
    deliver 4\n\
    read 1 low /.:/lone A\n\
    deliver 2\n\
    dump 1 1\n";

pub const OLD_MASTER_ANSWERS: &[u8] = b"1 ok\n\
    2 ok\n\
    3 ok posted 1\n\
    4 ok taken\n\
    5 ok 2 posted 2\n\
    6 ok 1@00000000000a posted 3\n\
    7 ok late 1 2\n\
    8 ok complete 1@00000000000b\n\
    9 ok 3 posted 4\n\
    10 refused NotJoined 1 3\n\
    11 ok taken\n\
    12 refused NoSuchName 0\n\
    13 ok late 2 3\n\
    14 dump epoch 3 allupto 1@00000000000b members 1:3:r 2:1:m\n\
    14 end\n";

// A usual cell: three servers, an alias, a group, and two profiles that lead to each other.
pub const USUAL_CELL: &[u8] = b"house 1 00000000000a\n\
    root 1\n\
    export /.:/srv-a a0000000-0000-0000-0000-000000000001:1.2 ncacn_ip_tcp:10.0.0.1[1025],ncadg_ip_udp:10.0.0.1[1026] \
    00000000-0000-0000-0000-0000000000b2,00000000-0000-0000-0000-0000000000b1\n\
    export /.:/srv-b a0000000-0000-0000-0000-000000000001:1.1 ncacn_ip_tcp:10.0.0.2[1025] -\n\
    export /.:/srv-c a0000000-0000-0000-0000-000000000001:1.3 ncacn_ip_tcp:10.0.0.3 -\n\
    link 1 1 srv-alias /.:/srv-a\n\
    groupadd /.:/print-group /.:/srv-c\n\
    groupadd /.:/print-group /.:/srv-alias\n\
    groupadd /.:/print-group /.:/gone\n\
    groupadd /.:/print-group /.:/srv-b\n\
    profadd /.:/user-profile a0000000-0000-0000-0000-000000000001:1.2 /.:/print-group 3 -\n\
    profadd /.:/user-profile a0000000-0000-0000-0000-000000000001:1.2 /.:/srv-a 0 local\n\
    profadd /.:/user-profile default /.:/cell-profile 8 -\n\
    profadd /.:/cell-profile default /.:/user-profile 8 -\n\
    import 1 high /.:/user-profile a0000000-0000-0000-0000-000000000001:1.2 - ncacn_ip_tcp,ncadg_ip_udp\n\
    import 1 high /.:/user-profile a0000000-0000-0000-0000-000000000001:1.2 00000000-0000-0000-0000-0000000000b2 ncacn_ip_tcp\n\
    unexport /.:/srv-a a0000000-0000-0000-0000-000000000001:1.2 -\n\
    import 1 high /.:/user-profile a0000000-0000-0000-0000-000000000001:1.2 - ncacn_ip_tcp,ncadg_ip_udp\n\
    unexport /.:/srv-a a0000000-0000-0000-0000-000000000001:1.2 -\n\
    groupdel /.:/print-group /.:/gone\n\
    groupdel /.:/print-group /.:/gone\n\
    profdel /.:/user-profile default /.:/cell-profile\n\
    profadd /.:/user-profile default /.:/srv-a 3 -\n";

pub const USUAL_CELL_ANSWERS: &[u8] = b"1 ok\n\
    2 ok\n\
    3 ok 5\n\
    4 ok 2\n\
    5 ok 2\n\
    6 ok 10@00000000000a\n\
    7 ok 2\n\
    8 ok 1\n\
    9 ok 1\n\
    10 ok 1\n\
    11 ok 2\n\
    12 ok 1\n\
    13 ok 1\n\
    14 ok 2\n\
    15 binding 00000000-0000-0000-0000-0000000000b1@ncadg_ip_udp:10.0.0.1[1026]\n\
    15 binding 00000000-0000-0000-0000-0000000000b1@ncacn_ip_tcp:10.0.0.1[1025]\n\
    15 binding ncacn_ip_tcp:10.0.0.3\n\
    15 end 3\n\
    16 binding 00000000-0000-0000-0000-0000000000b2@ncacn_ip_tcp:10.0.0.1[1025]\n\
    16 end 1\n\
    17 ok 2\n\
    18 binding ncacn_ip_tcp:10.0.0.3\n\
    18 end 1\n\
    19 refused NothingToUnexport\n\
    20 ok 1\n\
    21 refused NoSuchMember\n\
    22 ok 1\n\
    23 refused BadPriority\n";

// A house loses power inside an update, twice: the update is not done, and then it is.
pub const STOPPED_ADD: &[u8] = b"house 1 00000000000a\n\
    root 1\n\
    create 1 1 e\n\
    stop 1 4 drop add 1 1 e A 01\n\
    start 1\n\
    read 1 low /.:/e A\n\
    stop 1 4 keep add 1 1 e A 01\n\
    start 1\n\
    read 1 low /.:/e A\n\
    add 1 1 e A 02\n";

pub const STOPPED_ADD_ANSWERS: &[u8] = b"1 ok\n\
    2 ok\n\
    3 ok 1@00000000000a\n\
    4 ok stopped before\n\
    5 ok\n\
    6 ok 0\n\
    7 ok stopped after\n\
    8 ok\n\
    9 ok 1 01\n\
    10 ok 3@00000000000a\n";

// A clerk of eight answers.
pub const KEPT_READS: &[u8] = b"house 1 00000000000a\n\
    root 1\n\
    create 1 1 e\n\
    add 1 1 e A 01\n\
    read 1 low /.:/e A\n\
    add 1 1 e A 02\n\
    read 1 low /.:/e A\n\
    read 1 high /.:/e A\n\
    read 1 low /.:/e A\n\
    crash 1\n\
    read 1 low /.:/e A\n\
    read 1 low /.:/e B\n\
    read 1 high /.:/e A\n";

pub const KEPT_READS_ANSWERS: &[u8] = b"1 ok\n\
    2 ok\n\
    3 ok 1@00000000000a\n\
    4 ok 2@00000000000a\n\
    5 ok 1 01\n\
    6 ok 3@00000000000a\n\
    7 ok 1 01\n\
    8 ok 2 01 02\n\
    9 ok 1 01\n\
    10 ok\n\
    11 ok 1 01\n\
    12 refused Vanished\n\
    13 refused Unreachable 1\n";

// What entries of a usual cell say.
pub const INQUIRIES: &[u8] = b"house 1 00000000000a\n\
    root 1\n\
    export /.:/srv-a a0000000-0000-0000-0000-000000000001:1.2 ncacn_ip_tcp:10.0.0.1[1025],ncadg_ip_udp:10.0.0.1[1026] 00000000-0000-0000-0000-0000000000b2,00000000-0000-0000-0000-0000000000b1\n\
    export /.:/srv-b a0000000-0000-0000-0000-000000000001:1.1 ncacn_ip_tcp:10.0.0.2[1025] -\n\
    export /.:/srv-c a0000000-0000-0000-0000-000000000001:1.3 ncacn_ip_tcp:10.0.0.3 -\n\
    link 1 1 srv-alias /.:/srv-a\n\
    groupadd /.:/print-group /.:/srv-c\n\
    groupadd /.:/print-group /.:/srv-alias\n\
    groupadd /.:/print-group /.:/gone\n\
    groupadd /.:/print-group /.:/srv-b\n\
    profadd /.:/user-profile a0000000-0000-0000-0000-000000000001:1.2 /.:/print-group 3 -\n\
    profadd /.:/user-profile a0000000-0000-0000-0000-000000000001:1.2 /.:/srv-a 0 local\n\
    profadd /.:/user-profile default /.:/cell-profile 8 -\n\
    profadd /.:/cell-profile default /.:/user-profile 8 -\n\
    grouplist 1 high /.:/print-group\n\
    lookup 1 high /.:/user-profile a0000000-0000-0000-0000-000000000001:1.2 - ncacn_ip_tcp,ncadg_ip_udp 2\n\
    entrylist 1 high /.:/srv-a\n";

pub const INQUIRIES_ANSWERS: &[u8] = b"1 ok\n\
    2 ok\n\
    3 ok 5\n\
    4 ok 2\n\
    5 ok 2\n\
    6 ok 10@00000000000a\n\
    7 ok 2\n\
    8 ok 1\n\
    9 ok 1\n\
    10 ok 1\n\
    11 ok 2\n\
    12 ok 1\n\
    13 ok 1\n\
    14 ok 2\n\
    15 member /.:/gone\n\
    15 member /.:/srv-alias\n\
    15 member /.:/srv-b\n\
    15 member /.:/srv-c\n\
    15 end 4\n\
    16 batch 2\n\
    16 binding 00000000-0000-0000-0000-0000000000b1@ncadg_ip_udp:10.0.0.1[1026]\n\
    16 binding 00000000-0000-0000-0000-0000000000b1@ncacn_ip_tcp:10.0.0.1[1025]\n\
    16 batch 1\n\
    16 binding ncacn_ip_tcp:10.0.0.3\n\
    16 end 3\n\
    17 interface a0000000-0000-0000-0000-000000000001:1.2\n\
    17 object 00000000-0000-0000-0000-0000000000b1\n\
    17 object 00000000-0000-0000-0000-0000000000b2\n\
    17 end 3\n";

// The images of two houses, the second of which has an entry that the first has not.
pub const IMAGES: &[u8] =
    b"\x02\x09\x01\x00\x00\x00\x00\x00\x0a\x00\x00\x00\x00\x00\x00\x00\x05\x00\x00\x00\x00\x00\
    \x00\x00\x01\x00\x00\x00\x01\x01\x00\x00\x00\x00\x00\x00\x00\x01\x02\x01\x00\x00\x00\x00\
    \x00\x00\x00\x01\x01\x02\x00\x00\x00\x00\x00\x00\x00\x01\x02\x01\x00\x00\x00\x00\x00\x00\
    \x00\x05\x00\x00\x00\x00\x00\x0a\x00\x00\x00\x00\x00\x00\x00\x00\x00\x00\x00\x00\x00\x00\
    \x00\x00\x02\x09\x02\x00\x00\x00\x00\x00\x0b\x00\x00\x00\x00\x00\x00\x00\x05\x00\x00\x00\
    \x00\x00\x00\x00\x01\x00\x00\x00\x01\x01\x00\x00\x00\x00\x00\x00\x00\x01\x02\x01\x00\x00\
    \x00\x00\x00\x00\x00\x01\x01\x02\x00\x00\x00\x00\x00\x00\x00\x01\x02\x01\x00\x00\x00\x00\
    \x00\x00\x00\x05\x00\x00\x00\x00\x00\x0a\x00\x00\x00\x00\x00\x00\x00\x01\x01\x65\x01\x00\
    \x00\x00\x00\x00\x00\x00\x03\x00\x00\x00\x00\x00\x0a\x00\x00\x00\x00\x00\x00\x00\x00\x00\
    \x00\x00\x00\x00\x00\x00\x00\x01";

pub const IMAGES_VERDICT: &[u8] = b"differ 1 2 birth e 3@00000000000a\n";

// A house with the root directory, and a second one that never heard of it and crashed.
pub const TROUBLE: &[u8] = b"house 1 00000000000a\n\
    house 2 00000000000b\n\
    root 1 s2\n\
    lose 1\n\
    crash 2\n";

// The commands that mend directory 1.
pub const TROUBLE_MENDED: &[u8] = b"start 2\n\
    epoch 1 1 s2\n\
    deliver 2\n\
    skulk 1 1\n\
    deliver 3\n\
    deliver 4\n\
    deliver 5\n\
    deliver 6\n";

// A clerk that reads a value at the house that is near, a command that is none, and a house that
// nobody asked.
pub const HEARD: &[u8] = b"do 1 read low /.:/a A\n\
    hear 1 ok epoch 1 allupto none skulk none entries 0 members 1:1:m 2:1:r\n\
    hear 2 object\n\
    hear 2 attr A\n\
    hear 2 value 00\n\
    hear 2 end\n\
    do 2 hop\n\
    down 9\n";

pub const HEARD_ANSWERS: &[u8] = b"ask 1 1 2 status 1\n\
    ask 2 1 2 show low 1 a\n\
    say 1 ok 1 00\n\
    say 2 fault UnknownCommand 1\n";
