// Words of page tables, against values worked by hand.
use mon_tables::{Leaf, host_slot, leaf_word, number_slot, root_of, start_words, table_page};
use pl_base::{EncNo, Mode, Perms, Ppn, Space, Vpn};

const READ_WRITE: Perms = Perms(3);

const READ_RUN: Perms = Perms(5);

#[test]
fn the_last_page_of_the_last_table_has_the_last_slot(rt: HostRuntime) {
    assert_eq!(rt; host_slot(1, Vpn(0)), Some((2, 0)));
    assert_eq!(rt; host_slot(2, Vpn(512)), Some((3, 0)));
    assert_eq!(rt; host_slot(2, Vpn(1023)), Some((3, 4088)));
    assert_eq!(rt; host_slot(2, Vpn(1024)), None);
}

// Page 20 has the number 0x80014, which stands from bit 10 on.
#[test]
fn leaves_have_a_and_with_w_also_d(rt: HostRuntime) {
    assert_eq!(rt; leaf_word(20, READ_WRITE, Mode::Super), 0x2000_50c7);
    assert_eq!(rt; leaf_word(20, READ_RUN, Mode::Super), 0x2000_504b);
    assert_eq!(rt; leaf_word(20, READ_RUN, Mode::User), 0x2000_505b);
}

#[test]
fn roots_and_start_words_follow_the_layout(rt: HostRuntime) {
    assert_eq!(rt; root_of(2, Space(0)), Ppn(0x8_0000));
    assert_eq!(rt; root_of(2, Space(1)), Ppn(0x8_0004));
    assert_eq!(rt; root_of(2, Space(64)), Ppn(0x8_00c1));
    let words = start_words(2);
    assert_eq!(rt;
        words.as_slice(),
        [
            (0, 0, 0x2000_0401),
            (1, 0, 0x2000_0801),
            (1, 8, 0x2000_0c01),
        ]
        .as_slice()
    );
}

// With one last-level table of the host, the tables of number 1 are pages 6, 7 and 8.
#[test]
fn a_number_has_a_root_a_middle_and_a_last_table(rt: HostRuntime) {
    let mut page = [0xff; 4096];
    table_page(1, EncNo(1), 2, &[], &mut page);
    assert_eq!(rt;
        &page[..10],
        [1, 0x1c, 0, 0x20, 0, 0, 0, 0, 0, 0].as_slice()
    );
    table_page(1, EncNo(1), 1, &[], &mut page);
    assert_eq!(rt;
        &page[..10],
        [1, 0x20, 0, 0x20, 0, 0, 0, 0, 0, 0].as_slice()
    );
    let leaf = Leaf {
        page: 20,
        perms: READ_RUN,
    };
    table_page(1, EncNo(1), 0, &[leaf], &mut page);
    assert_eq!(rt;
        &page[120..138],
        [
            0, 0, 0, 0, 0, 0, 0, 0, 0x5b, 0x50, 0, 0x20, 0, 0, 0, 0, 0, 0
        ]
        .as_slice()
    );
    assert_eq!(rt; page[4095], 0);
    assert_eq!(rt; number_slot(1, EncNo(1), 0), (8, 128));
}
