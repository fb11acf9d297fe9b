//! Texts that makers' own programs made: python3-django 3.2.25, python3-passlib 1.7.4, and PHP 8.2.36 by the published form of
//! WordPress 6.8. Each is a place among the passwords, and a text of its cost 5. Django's have our front in the place of theirs.

pub const PASSWORDS: [&str; 7] = [
    "secret",
    "correct horse battery",
    "naïve pässwörd 密码🔑",
    "",
    "long password number one: abcdefghijabcdefghijabcdefghijabcdefghijabcdefghijabcdefghijabcdefghijabcdefghijabcdefghijabcdefghijabcdefghijabcdefghij",
    "with\ttab:colon$dollar 'quotes\" ",
    "xxxxxxxxxxxxxxxxxxxxxxxxxxxxxxxxxxxxxxxxxxxxxxxxxxxxxxxxxxxxxxxxxxxxxxxxtail",
];

pub const DJANGO: [(usize, &str); 6] = [
    (
        3,
        "$bcrypt-sha256-hex$2b$05$cGj5kWy8s9uwxmjlrhKeFe8A.vjOUSMUGLZug1x/pssdN9Ikh5VGK",
    ),
    (
        1,
        "$bcrypt-sha256-hex$2b$05$NpiuUBS4jSBuCPK/9iwGJOCka18pYMoqWiIZhSHQ4Wy0YobXsnnm2",
    ),
    (
        4,
        "$bcrypt-sha256-hex$2b$05$M7IcapBARGFNVkfijL5E8Of87oaTqDlCEQZ1IbKp.Tuh9ht3fFXaa",
    ),
    (
        2,
        "$bcrypt-sha256-hex$2b$05$PwgSK60i0YFVWXg5B/ADZuOFuk/F8J0Mgej1.qJAHlZwD8UZXRMme",
    ),
    (
        5,
        "$bcrypt-sha256-hex$2b$05$2TGLDCocMSevBbnfH3xBwuBxvYSXzJu4jIbJa1nmmhXOJJ/4iMV2a",
    ),
    (
        6,
        "$bcrypt-sha256-hex$2b$05$TsWsSE.aBfLr3HaUCb8DGeTGnLedQNBOZKQfLo4WmW.hSHERkO7Nu",
    ),
];

pub const PASSLIB: [(usize, &str); 7] = [
    (
        3,
        "$bcrypt-sha256$v=2,t=2b,r=5$FmdNmkcizQpzxFWltHFHOe$IzjSTmJs2rkKBP1.nfp11902U9O1o5S",
    ),
    (
        1,
        "$bcrypt-sha256$v=2,t=2b,r=5$zfoEAOlCKlWcPrGs4m6aKu$GsFoYFWYKCuxoZ.6H1ZfrgHq9knCKTy",
    ),
    (
        4,
        "$bcrypt-sha256$v=2,t=2b,r=5$WKVcxPDb50VeTfhjuQ7U/O$Vuifzk/PwxdQeVlOC5E24aTZar/EqFG",
    ),
    (
        2,
        "$bcrypt-sha256$v=2,t=2b,r=5$4YBB5PRGt0Ll7e13S.1KZO$q896339yvUAtdjpeac0SH/3g72VOeOe",
    ),
    (
        0,
        "$bcrypt-sha256$v=2,t=2b,r=5$rQ4YSmKXcMgu5A9G67oqZe$S9cUb0ixwFd041WWlme5LZJoDd3KoHC",
    ),
    (
        5,
        "$bcrypt-sha256$v=2,t=2b,r=5$.KvYTneCa.AxLAdB1GFwg.$T9Xau/VXCUt32AXo8UhKvAMU90pDvKK",
    ),
    (
        6,
        "$bcrypt-sha256$v=2,t=2b,r=5$9e6PsJBnzPVkKCipcLNdY.$AEEgdvL5eJEx/op8j/sA3I5hoG83tfy",
    ),
];

pub const PASSLIB_1: [(usize, &str); 7] = [
    (
        3,
        "$bcrypt-sha256$2b,5$jFxvhxp/.zpqpyDsTGdzZ.$G8oCiUZzPnFMzyKJj1KUZHUgabulFji",
    ),
    (
        1,
        "$bcrypt-sha256$2b,5$MDWD1QGjVJITfPcJxjfFZ.$iQeFzS0cOHRAVwPz9WELLsRhbkiq116",
    ),
    (
        4,
        "$bcrypt-sha256$2b,5$OmOcKNiqwyjdkb7/yzCSdO$toCA3pOHM614pCmOZVtpQBDP.3Up1tK",
    ),
    (
        2,
        "$bcrypt-sha256$2b,5$YihD9faPrgioiBFzCRc09.$rrgIklMPZ9ohrq7Mo9jMheLuPFjA/1m",
    ),
    (
        0,
        "$bcrypt-sha256$2b,5$73zp3UbEDtKCA3/c0gbi5O$Ou1TgC1rvZCXN/vwc3Yg1rFcB4042Hm",
    ),
    (
        5,
        "$bcrypt-sha256$2b,5$gEcBiP1JQDLI/Iw6rOP2Cu$TrzcZw8lipt96o90VpGfLnxzUxH5lIq",
    ),
    (
        6,
        "$bcrypt-sha256$2b,5$H3IiE4qmOeooXpiVUIhUlu$T0MoDbLy50VCuzUyGjbiNyeofbZm./S",
    ),
];

pub const PASSLIB_DJANGO: [(usize, &str); 7] = [
    (
        3,
        "$bcrypt-sha256-hex$2b$05$quzjUsr5j.HnGgWcFaIuUucT4GKS3hXtiiebJQ9hYh38KROfi49sm",
    ),
    (
        1,
        "$bcrypt-sha256-hex$2b$05$KnNeIjavb7VXHX.yexDRDeX4rwO9VXN8duHydOu95JbDNSLtVpSc2",
    ),
    (
        4,
        "$bcrypt-sha256-hex$2b$05$PJMUsE9ZRoTZDVSrWvOirOedAMIpoQJykx2MtnLseYQ081mMKKiuu",
    ),
    (
        2,
        "$bcrypt-sha256-hex$2b$05$yBxsoJxSWlWMfOEXWHvRueU09jUo35SCcxOxVBbzSA3il3lb.8fvO",
    ),
    (
        0,
        "$bcrypt-sha256-hex$2b$05$mgwKTVdGtvfwHSnP5ZEZoOul2MrsKccvFQ/0DiZXPl2thixTnaPeS",
    ),
    (
        5,
        "$bcrypt-sha256-hex$2b$05$ZrWnp/kdLWJK8abEN2DyO.uo6rnJeXrUP9okMXAmETvPzX/eSOqyi",
    ),
    (
        6,
        "$bcrypt-sha256-hex$2b$05$FKJmBn5ctrpodXKehC08tODsveAx8F1vL7Txp8JeZbO9pctEnxXz6",
    ),
];

pub const WORDPRESS: [(usize, &str); 7] = [
    (
        3,
        "$wp$2y$05$Azkz1oaoqo8N5yiLGk7jWer2DbSpMDIiRwN2Q8i9/JAZi62XsaNOm",
    ),
    (
        1,
        "$wp$2y$05$TL4EvrWJElEhyuNtqY6Hu.IJgX.vvg8znYjhW9nbAZgYXarjQCCG2",
    ),
    (
        4,
        "$wp$2y$05$EJGePNOyr1B9uUg8qIa6auBvmzPZlgVsvQJHPeXcagwwLz85.bmB2",
    ),
    (
        2,
        "$wp$2y$05$DV8YQRXpr2Lq2yPgcNwZo.3AWNpsN8ZTxX0POVH2SkLVYYPM5gFEi",
    ),
    (
        0,
        "$wp$2y$05$IzbCPJ1x/GAo.yF0rHKOpurTzPqnWpKjKfwEf8Jcmm9Al4Hrw56UO",
    ),
    (
        5,
        "$wp$2y$05$o/4XftjIlD74DEpuEXYNfub/FLduoW0WnJofmTsDyJBa2BkXNfmmG",
    ),
    (
        6,
        "$wp$2y$05$Y4TNlU11rhgY1gbvUN3qHeycUgBTvfDViKfOWJkRvbU58axmo2bgm",
    ),
];
